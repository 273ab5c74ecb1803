//! That the box which is the tip tells of a run what the tip does: each touch and the collision that the run stops with, and nothing else.

// A word of a line, or nothing where it has no so many.
fn word(line: &str, separator: char, place: usize) -> &str {
    for (index, word) in line.split(separator).enumerate() {
        if index == place {
            return word;
        }
    }
    ""
}

// Whether a contact is the touch that a row of measured points tells.
fn is_touch(contact: &str, point: &str) -> bool {
    word(contact, ' ', 2) == "SEARCH"
        && word(contact, ' ', 6) == "1000"
        && word(contact, ' ', 10) == word(point, ',', 1)
        && word(contact, ' ', 12) == word(point, ',', 0)
}

// Whether a contact is the collision that the line of a stop tells: of the same way, with the same block, as far, in the same statement.
fn is_stop(contact: &str, stop: &str) -> bool {
    [2, 4, 6, 8, 10].iter().all(|place| word(contact, ' ', *place) == word(stop, ' ', *place))
}

// The next line of a contact, or of none.
fn next_contact(lines: &str, from: usize) -> (&str, usize) {
    for (index, line) in lines.split('\n').enumerate() {
        if index >= from && line.starts_with("contact ") {
            return (line, index + 1);
        }
    }
    ("", from)
}

// The last line of a stop, or none.
fn stop_of(output: &str) -> &str {
    let mut behind = 0;
    for (index, line) in output.split('\n').enumerate() {
        if line.starts_with("stop ") {
            behind = index + 1;
        }
    }
    if behind == 0 {
        ""
    } else {
        word(output, '\n', behind - 1)
    }
}

// Whether a contact is a touch that comes before this stop of a retract, whose line is the word at this place.
fn is_last_touch(contact: &str, stop: &str, place: usize) -> bool {
    word(contact, ' ', 2) == "SEARCH"
        && word(contact, ' ', 6) == "1000"
        && word(contact, ' ', 10) == word(stop, ' ', place)
}

// Where the contacts of the rows of points end, which are their touches in their order; none where they aren't.
fn behind_points(contacts: &str, points: &str) -> Option<usize> {
    let mut from = 0;
    for (index, point) in points.split('\n').enumerate() {
        if index == 0 || point.is_empty() {
            continue;
        }
        let (contact, behind) = next_contact(contacts, from);
        if !is_touch(contact, point) {
            return None;
        }
        from = behind;
    }
    Some(from)
}

// Whether the contacts from a line on are those of a stop: a touch before a retract that fails, and the collision.
fn are_of_stop(contacts: &str, from: usize, stop: &str) -> bool {
    let (contact, behind) = next_contact(contacts, from);
    if stop.starts_with("stop TRAVEL RETRACT ") {
        return is_last_touch(contact, stop, 6) && next_contact(contacts, behind).0.is_empty();
    }
    if !stop.starts_with("stop COLLISION ") {
        return contact.is_empty();
    }
    if stop.starts_with("stop COLLISION RETRACT ") {
        let (collision, end) = next_contact(contacts, behind);
        return is_last_touch(contact, stop, 10)
            && is_stop(collision, stop)
            && next_contact(contacts, end).0.is_empty();
    }
    is_stop(contact, stop) && next_contact(contacts, behind).0.is_empty()
}

/// Whether the contacts of the box that is the tip tell what the tip does in a run, which has these measured points and this output.
pub(crate) fn are_of_the_tip(contacts: &str, points: &str, output: &str) -> bool {
    match behind_points(contacts, points) {
        Some(from) => are_of_stop(contacts, from, stop_of(output)),
        None => false,
    }
}
