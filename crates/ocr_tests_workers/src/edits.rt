// Entries in another order, and changed.
use ocr_body_meaning::{Answer, Call};
use ocr_guid::Guid;
use ocr_machine_history::{Entry, Writes};
use std::alloc::Global;
use std::test::Fail;

/// What is done to an entry.
#[derive(Clone, Copy, PartialEq, Eq, Debug)]
pub enum Edit {
    Dropped,
    Doubled,
    /// It comes after the next one.
    Swapped,
    /// It prints this, answers this, is one of this EDT, or returns this.
    Prints(u64),
    Answers(u64),
    By(u64),
    Returns(u64),
}

/// The entries in this order.
pub fn ordered(alloc: Global, entries: &[Entry], order: &[usize]) -> Result<Vec<Entry>, Fail> {
    let mut ordered = Vec::new(alloc);
    for place in order {
        let entry = entries.get(*place).ok_or("an entry")?;
        add(alloc, &mut ordered, entry, None)?;
    }
    Ok(ordered)
}

/// The entries, of which the one at this place is edited.
pub fn edited(
    alloc: Global,
    entries: &[Entry],
    place: usize,
    edit: Edit,
) -> Result<Vec<Entry>, Fail> {
    let mut edited = Vec::new(alloc);
    for i in 0..entries.len() {
        let entry = entries.get(source(i, place, edit)).ok_or("an entry")?;
        let is_it = i == place;
        if is_it && edit == Edit::Dropped {
            continue;
        }
        add(
            alloc,
            &mut edited,
            entry,
            if is_it { Some(edit) } else { None },
        )?;
        if is_it && edit == Edit::Doubled {
            add(alloc, &mut edited, entry, None)?;
        }
    }
    Ok(edited)
}

// The place of the entry that comes to this place.
fn source(i: usize, place: usize, edit: Edit) -> usize {
    if edit != Edit::Swapped {
        i
    } else if i == place {
        i.saturating_add(1)
    } else if i > 0 && i - 1 == place {
        place
    } else {
        i
    }
}

/// Adds an entry, edited so.
pub fn add(
    alloc: Global,
    entries: &mut Vec<Entry>,
    entry: &Entry,
    edit: Option<Edit>,
) -> Result<(), Fail> {
    let entry = changed(alloc, entry, edit)?;
    entries.reserve(1)?;
    entries.push_reserved(entry);
    Ok(())
}

fn changed(alloc: Global, entry: &Entry, edit: Option<Edit>) -> Result<Entry, Fail> {
    match entry {
        Entry::Call {
            edt,
            home,
            call,
            answer,
            writes,
        } => Ok(Entry::Call {
            edt: by(*edt, edit),
            home: *home,
            call: changed_call(call, edit)?,
            answer: changed_answer(*answer, edit),
            writes: copied(alloc, writes)?,
        }),
        Entry::Deliver { message, code } => Ok(Entry::Deliver {
            message: *message,
            code: *code,
        }),
        Entry::Acquire { edt, block } => Ok(Entry::Acquire {
            edt: by(*edt, edit),
            block: *block,
        }),
        Entry::Wait { edt, block } => Ok(Entry::Wait {
            edt: by(*edt, edit),
            block: *block,
        }),
        Entry::StaleAcquire { edt, block } => Ok(Entry::StaleAcquire {
            edt: by(*edt, edit),
            block: *block,
        }),
        Entry::Start { edt } => Ok(Entry::Start {
            edt: by(*edt, edit),
        }),
        Entry::Free { edt, block, writes } => Ok(Entry::Free {
            edt: by(*edt, edit),
            block: *block,
            writes: copied(alloc, writes)?,
        }),
        Entry::End { edt, returned } => Ok(Entry::End {
            edt: by(*edt, edit),
            returned: returned_as(*returned, edit),
        }),
        Entry::Stop(stop) => Ok(Entry::Stop(*stop)),
    }
}

fn copied(alloc: Global, writes: &Writes) -> Result<Writes, Fail> {
    Ok(Writes::from_vec(Vec::from_slice(alloc, writes.as_slice())?))
}

fn by(edt: Guid, edit: Option<Edit>) -> Guid {
    if let Some(Edit::By(other)) = edit {
        Guid(other)
    } else {
        edt
    }
}

fn returned_as(returned: Guid, edit: Option<Edit>) -> Guid {
    if let Some(Edit::Returns(other)) = edit {
        Guid(other)
    } else {
        returned
    }
}

fn changed_answer(answer: Answer, edit: Option<Edit>) -> Answer {
    let mut answer = answer;
    if let Some(Edit::Answers(other)) = edit {
        answer.value = other;
    }
    answer
}

fn changed_call(call: &Call, edit: Option<Edit>) -> Result<Call, Fail> {
    if let Call::Print { .. } = call {
        if let Some(Edit::Prints(other)) = edit {
            return Ok(Call::Print { value: other });
        }
    }
    Ok(call.clone()?)
}
