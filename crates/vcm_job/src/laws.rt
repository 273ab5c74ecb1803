//! The law of the commands that are no session, the contract of a function without a body.

ghost use Rattle.vcm_job.specs.Laws.{JobAnswersAreOne, RunAnswersAreOne, BuildAnswersAreOne, CheckAnswersAreOne, ListAnswersAreOne, AsmAnswersAreOne, PartAnswersAreOne, ReadAnswersAreOne};

/// Two answers of a command to one input, neither of which want of memory or a failed device cut short, are one: they give the same, or tell the same
/// cause, and the same bytes were written.
pub fn answers_are_one()
    ensures job { JobAnswersAreOne }
    ensures run { RunAnswersAreOne }
    ensures build { BuildAnswersAreOne }
    ensures check { CheckAnswersAreOne }
    ensures list { ListAnswersAreOne }
    ensures asm { AsmAnswersAreOne }
    ensures part { PartAnswersAreOne }
    ensures read { ReadAnswersAreOne }
{}
