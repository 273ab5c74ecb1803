//! Texts and bytes of parts and programs that several crates of tests read.

use std::alloc::Global;

/// The bounds and the home of a machine, as a part file begins.
pub const BOUNDS: &str = "low = [-500000, -500000, -500000]
high = [500000, 500000, 500000]
home = [0, 0, 100000]
";

/// One block on the table.
pub const ONE_BLOCK: &str = "[[block]]
low = [10000, 10000, 0]
high = [30000, 30000, 20000]
";

/// A loop that prints three lines, in eight steps: one in the second, the fourth and the sixth.
pub const THREE: &str = "DECL/INTGR,I\nDO/I,1,3,1\nTEXT/OPER,'A'\nENDDO\n";

/// A loop that prints 40 lines, in 82 steps.
pub const FORTY: &str = "DECL/INTGR,I\nDO/I,1,40\nTEXT/OPER,'a line of it'\nENDDO\n";

/// The image of `GOTO/20,20,50` and `ENDFIL`, on the lines 3 and 4.
pub const MOVE: [u8; 62] = [
    0x56, 0x43, 0x4d, 0x49, 1, 0, 0, 0, 0, 0, 0, 0, 2, 0, 0, 0, // the header
    1, 3, 0, 0, 0, // GOTO
    2, 0, 1, 0x14, 0, 0, 0, 0, 0, 0, 0, 0x15, // 20
    2, 0, 1, 0x14, 0, 0, 0, 0, 0, 0, 0, 0x15, // 20
    2, 0, 1, 0x32, 0, 0, 0, 0, 0, 0, 0, 0x15, // 50
    0, 4, 0, 0, 0, // ENDFIL
];

/// These texts one after another, unless memory runs out.
pub fn joined(alloc: Global, texts: &[&str]) -> Option<String> {
    let mut whole = String::new(alloc);
    for text in texts {
        whole.push_str(text).ok()?;
    }
    Some(whole)
}

/// The program with these statements between its head and its end, unless memory runs out.
pub fn program_of(alloc: Global, statements: &str) -> Option<String> {
    joined(
        alloc,
        &["DMISMN/'T'\nUNITS/MM,ANGDEC\n", statements, "ENDFIL\n"],
    )
}

/// The bytes with another one at a place; none where there is no such place, or memory runs out.
pub fn changed(alloc: Global, bytes: &[u8], place: usize, byte: u8) -> Option<Vec<u8>> {
    let mut copy = Vec::from_slice(alloc, bytes).ok()?;
    *copy.get_mut(place)? = byte;
    Some(copy)
}
