// Entries of several logs, in the order of their numbers.
ghost use Rattle.std.specs.Prelude.{◌≡◌, ◌+◌, ◌-◌, ◌<◌, ◌≤◌, ◌++◌, ℕ, List, length, map, reverse, drop, true, IfOk, IfSome, vec_len, vec_capacity};
ghost use mathlib.Core.Option.{some};
ghost use lib.ListN.{get_elem?};
ghost use Rattle.ocr_turns_rule.specs.Rule.{AllRise, LogOf};
ghost use Rattle.ocr_turns_rule.specs.Sums.{weigh, below};
ghost use Rattle.ocr_journal_merge.specs.Numbered.{AreByNumber, EndsAt, HasEnd, IsInOrder};

use ocr_base::NoMemory;
use ocr_turns::Log;
use std::alloc::Global;

/// The entries of logs that hold each number below the count once, by their numbers. A log that
/// holds all of them in order is taken as it stands. NoMemory where memory is refused.
pub fn by_number<E: Drop>(alloc: Global, logs: Vec<Log<E>>, count: u64) -> Result<Vec<E>, NoMemory>
    requires listed { (list : List E) × AreByNumber (map (λ l. l.items) logs.items) list
        × (length list ≡ count) }
    requires rise { AllRise (map (λ l. l.items) logs.items) }
    ensures { IfOk result (λ v. (list : List E)
        → AreByNumber (map (λ l. l.items) logs.items) list → v.items ≡ list) }
{
    match whole_log(logs.as_slice(), count) {
        Some(place) => {
            let mut logs = logs;
            Ok(logs.remove(place).into_entries())
        }
        None => from_ends(alloc, logs, count),
    }
}

// The place of a log that holds so many entries, which have the numbers from 0 on.
fn whole_log<E>(logs: &[Log<E>], count: u64) -> Option<usize>
    ensures { IfSome result (λ j. (log : List (ℕ × E))
        × (get_elem? (map (λ l. l.items) logs.now) j ≡ some log) × (length log ≡ count)
        × IsInOrder log) }
{
    for j in 0..logs.len() {
        let log = &logs[j];
        if log.len() as u64 == count && is_in_order(log.numbers()) {
            return Some(j);
        }
    }
    None
}

// Whether the numbers are those from 0 on.
fn is_in_order(numbers: &[u64]) -> bool
    ensures { result ≡ true → (k n : ℕ) → get_elem? numbers.now k ≡ some n → n ≡ k }
{
    for k in 0..numbers.len() {
        if numbers[k] != k as u64 {
            return false;
        }
    }
    true
}

// The same from logs of any kind. The entries leave them from their ends, the highest number first,
// and the logs give back memory on the way: so the entries are not there twice.
fn from_ends<E: Drop>(alloc: Global, logs: Vec<Log<E>>, count: u64) -> Result<Vec<E>, NoMemory>
    requires listed { (list : List E) × AreByNumber (map (λ l. l.items) logs.items) list
        × (length list ≡ count) }
    requires rise { AllRise (map (λ l. l.items) logs.items) }
    ensures { IfOk result (λ v. (list : List E)
        → AreByNumber (map (λ l. l.items) logs.items) list → v.items ≡ list) }
{
    let mut logs = logs;
    let mut entries = Vec::with_capacity(alloc, count as usize)?;
    let mut left = count;
    while left > 0 {
        let place = place_of(logs.as_slice(), left - 1);
        left = take_run(&mut logs[place], left, &mut entries);
    }
    entries.reverse();
    Ok(entries)
}

// The place of a log that ends with the number.
fn place_of<E>(logs: &[Log<E>], number: u64) -> usize
    requires { HasEnd number (map (λ l. l.items) logs.now) }
    ensures within { result < length logs.now }
    ensures ends { (log : List (ℕ × E))
        × (get_elem? (map (λ l. l.items) logs.now) result ≡ some log) × EndsAt number log }
{
    for j in 0..logs.len() {
        if ends_at(logs[j].numbers(), number) {
            return j;
        }
    }
    unreachable!()
}

// Whether the last number is this one.
fn ends_at(numbers: &[u64], number: u64) -> bool
    ensures yes { result ≡ true → get_elem? numbers.now (length numbers.now - 1) ≡ some number }
    ensures no { get_elem? numbers.now (length numbers.now - 1) ≡ some number → result ≡ true }
{
    let many = numbers.len();
    many > 0 && numbers[many - 1] == number
}

// Moves entries from the log's end, for as long as it has the next number down. What is left then.
fn take_run<E: Drop>(log: &mut Log<E>, mut left: u64, entries: &mut Vec<E>) -> u64
    requires { left + vec_len entries.old ≤ vec_capacity entries.old }
    ensures room { result + vec_len entries.new ≤ vec_capacity entries.new }
    ensures goes { 0 < left → EndsAt (left - 1) log.old.items → result < left }
    ensures front { (rest : List (ℕ × E)) × (log.old.items ≡ log.new.items ++ rest) }
    ensures numbers { (f : ℕ → ℕ)
        → weigh f log.old.items + below f result ≡ weigh f log.new.items + below f left }
    ensures taken { (list : List E) → LogOf list log.old.items
        → reverse entries.old.items ≡ drop left list
        → reverse entries.new.items ≡ drop result list }
{
    while left > 0 && ends_at(log.numbers(), left - 1) {
        match log.pop() {
            Some((_, entry)) => entries.push_reserved(entry),
            None => unreachable!(),
        }
        log.spare();
        left -= 1;
    }
    left
}
