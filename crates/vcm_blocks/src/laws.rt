//! Worked examples of the definitions, the contract of a function without a body.

ghost use Rattle.vcm_blocks.specs.Samples.{OneTurn, TwoTurns, NoQuarter, NoTurn, TwoWords, NoName, Box, FirstLook};

/// Worked examples.
pub fn blocks_examples()
    ensures one_turn { OneTurn }
    ensures two_turns { TwoTurns }
    ensures no_quarter { NoQuarter }
    ensures no_turn { NoTurn }
    ensures two_words { TwoWords }
    ensures no_name { NoName }
    ensures around { Box }
    ensures first_look { FirstLook }
{}
