//! The names of blocks that are left to be written. But for the making of them nothing here takes memory.

ghost use Rattle.std.specs.Prelude.{◌≡◌, ◌-◌};
ghost use Rattle.vcm_num.specs.Written.{Wrote};
ghost use Rattle.vcm_naming.specs.Naming.{name_text};

use itoa::Buffer;
use std::alloc::Global;
use std::io::Write;
use std::marker::Model;
use vcm_num::{NoMemory, WriteFault, write_pieces};

/// The names of the blocks of a part that are left to be written, in the order of the blocks: an empty one is none. Contracts see them as a list of texts.
#[derive(Drop)]
pub struct BlockNames {
    names: Vec<Vec<u8>>,
}

impl Model for BlockNames {
    ghost use Rattle.std.specs.Prelude.{List, ℕ, map};

    ghost Value = { List (List ℕ) };

    ghost view = { λ n. map (λ name. name.items) n.names.items };
}

// Writes the line of a block's name, if it has one.
fn write_name<W: Write>(block: u32, name: &[u8], writer: &mut W) -> Result<(), WriteFault>
    ensures { Wrote (W.contents writer.old) (W.contents writer.new) (name_text block name.now) result }
{
    if name.is_empty() {
        return Ok(());
    }
    let mut number = Buffer::new();
    let number = number.format(block).as_bytes();
    write_pieces(writer, &[b"block ", number, b" is \"", name, b"\"\n"])
}

// The place of a block in a list: blocks are counted from 1.
fn place_of(block: u32) -> usize
    ensures { result ≡ block - 1 }
{
    block.saturating_sub(1) as usize
}

impl BlockNames {
    ghost use Rattle.std.specs.Prelude.{◌≡◌, map, IfOk, OnOk, OnErr, Some};
    ghost use Rattle.vcm_num.specs.Written.{Wrote};
    ghost use Rattle.vcm_naming.specs.Naming.{name_below, left_below};

    /// The names of all blocks, each of which may be empty.
    ///
    /// Errors: want of memory.
    pub fn new(alloc: Global, names: &[Vec<u8>]) -> Result<BlockNames, NoMemory>
        ensures { IfOk result (λ n. n ≡ map (λ name. name.items) names.now) }
    {
        let mut left = Vec::with_capacity(alloc, names.len())?;
        for name in names {
            left.push(Vec::from_slice(alloc, name)?)?;
        }
        Ok(BlockNames { names: left })
    }

    // Writes the name of this block, if it is left.
    fn write_left<W: Write>(&self, block: u32, writer: &mut W) -> Result<(), WriteFault>
        ensures { Wrote (W.contents writer.old) (W.contents writer.new) (name_below self.now (Some block)) result }
    {
        match self.names.get(place_of(block)) {
            Some(name) => write_name(block, name, writer),
            None => Ok(()),
        }
    }

    // The name of this block is left no more.
    fn take_at(&mut self, block: u32)
        ensures { self.new ≡ left_below self.old (Some block) }
    {
        let place = place_of(block);
        if place < self.names.len() {
            self.names[place].clear();
        }
    }

    // The name of the block that a line names, if it names one, is left no more.
    fn take(&mut self, block: Option<u32>)
        ensures { self.new ≡ left_below self.old block }
    {
        if let Some(block) = block {
            self.take_at(block);
        }
    }

    /// Writes what stands below a line that names a block, or none: the line of the block's name, if it is left.
    ///
    /// Errors: the writer failed, or took no byte; then it has taken a front of the line, and not all of it.
    pub fn write_name<W: Write>(&self, block: Option<u32>, writer: &mut W) -> Result<(), WriteFault>
        ensures { Wrote (W.contents writer.old) (W.contents writer.new) (name_below self.now block) result }
    {
        match block {
            Some(block) => self.write_left(block, writer),
            None => Ok(()),
        }
    }

    /// The same, and the name is left no more.
    ///
    /// Errors: the writer failed, or took no byte; then it has taken a front of the line, and not all of it, and the names are as they were.
    pub fn write_once<W: Write>(
        &mut self,
        block: Option<u32>,
        writer: &mut W,
    ) -> Result<(), WriteFault>
        ensures written { Wrote (W.contents writer.old) (W.contents writer.new) (name_below self.old block) result }
        ensures ok { OnOk result (self.new ≡ left_below self.old block) }
        ensures err { OnErr result (self.new ≡ self.old) }
    {
        self.write_name(block, writer)?;
        self.take(block);
        Ok(())
    }
}
