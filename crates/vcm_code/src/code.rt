//! The statement code of a program.

use crate::op::OwnedStatement;
use crate::version::Version;
use vcm_items::Tables;
use vcm_num::Items;

/// The statement code of a program: its version, the tables of its names, and its statements, numbered from 0.
#[derive(Drop)]
pub struct Code {
    pub version: Version,
    pub tables: Tables,
    pub statements: Items<OwnedStatement>,
}
