//! Bodies: the boxes of one name, which are tried and told as one.

ghost use Rattle.std.specs.Prelude.{◌≡◌, ◌≤◌, ◌<◌, ◌+◌, ◌++◌, ◌∷◌, true, List, length, IfOk, OnOk};
ghost use Rattle.std.specs.List.{list_all};
ghost use Rattle.vcm_boxes.specs.Boxes.{is_box, is_taken};
ghost use Rattle.std.specs.Str.{bytes_eq};
ghost use Rattle.vcm_spec.specs.declared.workpiece.Block3.{Block3 as Block};
ghost use Rattle.vcm_probe_set.specs.Bodies.{Body as Meaning, IsBody, with_block, blocks_named, body_from, with_body, bodies_of};

use std::alloc::Global;
use std::marker::Model;
use vcm_boxes::{ProbeBox, ShortName};
use vcm_num::{NoMemory, is};
use vcm_spec::Block3;

/// A body: its name, and the 1 to 64 boxes that it is made of, each coordinate at most 10,000,000 micrometres from 0, and no low corner above its high one.
#[derive(Drop)]
pub struct Body {
    name: ShortName,
    blocks: Vec<Block3>,
}

impl Model for Body {
    ghost use Rattle.vcm_probe_set.specs.Bodies.{Body as Meaning, IsBody};

    ghost Value = { Meaning };

    ghost view = { λ b. record { name = b.name; blocks = b.blocks.items } };

    ghost invariant = { λ b. IsBody b.blocks.items };
}

impl Body {
    /// Its name.
    pub fn name(&self) -> &ShortName
        ensures { result.now ≡ self.now.name }
    {
        &self.name
    }

    /// Its boxes.
    pub fn blocks(&self) -> &[Block3]
        ensures blocks { result.now ≡ self.now.blocks }
        ensures valid { IsBody self.now.blocks }
    {
        &self.blocks
    }
}

// The same name.
fn same_name(name: &ShortName) -> ShortName
    ensures { result ≡ name.now }
{
    match ShortName::of(32, name.as_bytes()) {
        Some(same) => same,
        None => unreachable!(),
    }
}

// Whether one of these boxes has the name.
fn is_taken(name: &[u8], above: &[ProbeBox]) -> bool
    ensures { result ≡ is_taken name.now above.now }
{
    above.iter().any(|other| is(other.name.as_bytes(), name))
}

// One block more, where the box has the name.
fn add_named(blocks: &mut Vec<Block3>, name: &[u8], one: &ProbeBox) -> Result<(), NoMemory>
    ensures { OnOk result ((rest : List Block) → blocks.new.items ++ rest ≡ blocks.old.items ++ with_block (bytes_eq one.now.name name.now) one.now.block rest) }
{
    if is(one.name.as_bytes(), name) {
        blocks.push(one.block)?;
        Ok(())
    } else {
        Ok(())
    }
}

// The block of the first box, and those of the others that have its name.
fn blocks_from(
    alloc: Global,
    first: &ProbeBox,
    others: &[ProbeBox],
) -> Result<Vec<Block3>, NoMemory>
    ensures { IfOk result (λ v. v.items ≡ first.now.block ∷ blocks_named first.now.name others.now) }
{
    let mut blocks = Vec::new(alloc);
    blocks.push(first.block)?;
    for one in others {
        add_named(&mut blocks, first.name.as_bytes(), one)?;
    }
    Ok(blocks)
}

// The body that begins with the first of these boxes.
fn body_from(alloc: Global, first: &ProbeBox, others: &[ProbeBox]) -> Result<Body, NoMemory>
    requires few { length others.now < 64 }
    requires valid { list_all is_box (first.now ∷ others.now) ≡ true }
    ensures { IfOk result (λ b. b ≡ body_from first.now others.now) }
{
    let blocks = blocks_from(alloc, first, others)?;
    let name = same_name(&first.name);
    Ok(Body { name, blocks })
}

// One body more, unless a box above has its name.
fn add_body(
    alloc: Global,
    bodies: &mut Vec<Body>,
    above: &[ProbeBox],
    first: &ProbeBox,
    others: &[ProbeBox],
) -> Result<(), NoMemory>
    requires few { length others.now < 64 }
    requires valid { list_all is_box (first.now ∷ others.now) ≡ true }
    ensures body { OnOk result ((rest : List Meaning) → bodies.new.items ++ rest
        ≡ bodies.old.items ++ with_body (is_taken first.now.name above.now) (body_from first.now others.now) rest) }
    ensures few { OnOk result (length bodies.new.items ≤ length bodies.old.items + 1) }
{
    if is_taken(first.name.as_bytes(), above) {
        return Ok(());
    }
    let body = body_from(alloc, first, others)?;
    bodies.push(body)?;
    Ok(())
}

// The bodies of boxes: a body stands where its first box does.
pub(crate) fn bodies_of(alloc: Global, boxes: &[ProbeBox]) -> Result<Vec<Body>, NoMemory>
    requires few { length boxes.now ≤ 64 }
    requires valid { list_all is_box boxes.now ≡ true }
    ensures bodies { IfOk result (λ v. v.items ≡ bodies_of boxes.now) }
    ensures few { IfOk result (λ v. length v.items ≤ 64) }
{
    let mut bodies = Vec::new(alloc);
    for place in 0..boxes.len() {
        add_body(
            alloc,
            &mut bodies,
            &boxes[..place],
            &boxes[place],
            &boxes[place + 1..],
        )?;
    }
    Ok(bodies)
}
