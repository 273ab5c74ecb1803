//! What a refusal of the debugger means.

use crate::entry::Entry;

const SESSION: [Entry; 5] = [
    Entry {
        keys: &["G01", "UnknownCommand"],
        text: "G01 UnknownCommand
The debugger doesn't know this command, or it has a wrong form. Command words are lower
case; numbers have 1 to 10 digits.
For example, in a session on lines.dmi of the examples:
  stop
gives: G01 UnknownCommand",
    },
    Entry {
        keys: &["G02", "NoSuchName"],
        text: "G02 NoSuchName
There is no variable, or no feature, of this name. A variable of a macro belongs to one
expansion and is named with its number, as `T#2`; expansions count from 1 in the order
in which calls are carried out.
For example, in a session on lines.dmi of the examples:
  show x
gives: G02 NoSuchName",
    },
    Entry {
        keys: &["G03", "NoSuchStatement"],
        text: "G03 NoSuchStatement
No statement has this number, or no statement begins on this line. Lines with a DECL, a
comment or the rest of a statement have none; of a macro the lines of its body have, not
those of its CALL.
Do: `list 0`, `list 1`, .. show the statements.
For example, in a session on lines.dmi of the examples:
  break 99
gives: G03 NoSuchStatement",
    },
    Entry {
        keys: &["G04", "CountOutOfRange"],
        text: "G04 CountOutOfRange
A count is 1 to 1,000,000.
For example, in a session on lines.dmi of the examples:
  step 0
gives: G04 CountOutOfRange",
    },
    Entry {
        keys: &["G05", "BeforeStart"],
        text: "G05 BeforeStart
You can't go back further than to the start: fewer steps were taken than you want to go
back.
Do: `where` tells how many steps there are.
For example, in a session on lines.dmi of the examples:
  back
gives: G05 BeforeStart",
    },
];

// Explanations of the debugger: G01 to G05.
pub(crate) fn session_entries() -> &'static [Entry] {
    &SESSION
}
