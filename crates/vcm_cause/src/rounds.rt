//! How many rounds each loop has begun.

ghost use Rattle.std.specs.Prelude.{◌≡◌, ◌+◌, nat_eq};
ghost use Rattle.vcm_cause.specs.Behind.{one_more, round_of, begun, rounds_by, rounds_behind};

use vcm_code::Op;
use vcm_fields::BorrowedOp;
use vcm_spec::StopPlace;

/// The most loops that stand one in another.
pub const MOST_LOOPS: usize = 32;

/// The most rounds that are counted.
const MOST_ROUNDS: u64 = 1_000_000_000;

/// How many rounds the loops that stand one in another have begun, each at the place of its pair.
pub type Rounds = [u64; MOST_LOOPS];

// One round more, as far as rounds are counted.
fn one_more(round: u64) -> u64
    ensures { result ≡ one_more round }
{
    if round < MOST_ROUNDS {
        round + 1
    } else {
        round
    }
}

/// How many rounds the loop with this pair has begun.
pub fn round_of(rounds: &Rounds, pair: u8) -> u64
    ensures { result ≡ round_of rounds.now pair }
{
    match rounds.get(usize::from(pair)) {
        Some(round) => *round,
        None => 0,
    }
}

// The loop with this pair begins a round.
fn begin(rounds: &mut Rounds, pair: u8, round: u64)
    ensures { rounds.new ≡ begun rounds.old pair round }
{
    if usize::from(pair) < MOST_LOOPS {
        rounds[usize::from(pair)] = round;
    }
}

// What a statement does to the rounds, where the next statement is the one behind it, or another.
fn go_round(rounds: &mut Rounds, op: &BorrowedOp<'_>, straight: bool)
    ensures { rounds.new ≡ rounds_by rounds.old op.now straight }
{
    match op {
        Op::Do(_, pair, _, _, _, _) => {
            if straight {
                begin(rounds, *pair, 1);
            }
        }
        Op::EndDo(_, pair, _) => {
            if !straight {
                let round = one_more(round_of(rounds, *pair));
                begin(rounds, *pair, round);
            }
        }
        _ => {}
    }
}

/// What a step does to the rounds, if it hasn't stopped: the statement has this number, and the next one that.
pub fn count_round(
    rounds: &mut Rounds,
    op: &BorrowedOp<'_>,
    number: u32,
    next: u32,
    stop: Option<StopPlace>,
)
    ensures { rounds.new ≡ rounds_behind rounds.old op.now number next stop }
{
    match stop {
        Some(_) => {}
        None => go_round(rounds, op, u64::from(next) == u64::from(number) + 1),
    }
}
