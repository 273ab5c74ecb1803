//! Statements that were carried out, each once.

ghost use Rattle.std.specs.Prelude.{◌≡◌, OnOk};
ghost use Rattle.vcm_meant.specs.Seen.{is_seen, known_more, seen_with};

use vcm_num::NoMemory;

/// A FEAT or a DO that was carried out: its source line, the index of the feature that it declares, or 0, and whether that was measured, or it had a round, at some time.
#[derive(Clone, Copy)]
pub struct Seen {
    pub line: u32,
    pub feature: u16,
    pub is_met: bool,
}

// Whether it is that of this line and feature.
fn is_seen(line: u32, feature: u16, seen: Seen) -> bool
    ensures { result ≡ is_seen line feature seen }
{
    seen.line == line && seen.feature == feature
}

// The same, with what is known more of it.
fn known_more(seen: Seen, is_met: bool) -> Seen
    ensures { result ≡ known_more seen is_met }
{
    Seen {
        line: seen.line,
        feature: seen.feature,
        is_met: seen.is_met || is_met,
    }
}

/// One more, or what is known more of it.
///
/// Errors: want of memory.
pub(crate) fn see(
    all: &mut Vec<Seen>,
    line: u32,
    feature: u16,
    is_met: bool,
) -> Result<(), NoMemory>
    ensures { OnOk result (all.new.items ≡ seen_with line feature is_met all.old.items) }
{
    let mut at = 0;
    while at < all.len() {
        let seen = all[at];
        if is_seen(line, feature, seen) {
            all[at] = known_more(seen, is_met);
            return Ok(());
        }
        at += 1;
    }
    all.push(Seen {
        line,
        feature,
        is_met,
    })?;
    Ok(())
}
