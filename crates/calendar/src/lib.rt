// The calendar of the dated questions, and the days on which documents are in force. Document 02, M-109.
#![tactic(auto)]

ghost use Rattle.std.specs.Prelude.{◌≡◌, ◌+◌, ◌*◌, ◌≤◌, length};
ghost use Rattle.model.specs.Calendar.{leap, days_in, is_day};
ghost use Rattle.model.specs.Dated.{in_force, pair_holds, days_hold};
ghost use Rattle.calendar.specs.Kinds.{kinds, in_year};

// The lengths of the months in a common year. Months count from 1, and there is no day in month 0.
const LENGTHS: [u32; 13] = [0, 31, 28, 31, 30, 31, 30, 31, 31, 30, 31, 30, 31];

// The days of a year by month and day, four digits, a line a month from month 0: `d` for a day of every year, `l` for 29 February.
// Bytes and no enum: so the table reads as a calendar, where 1,300 names would not.
const KINDS: [u8; 1300] = *b"\
    ....................................................................................................\
    .ddddddddddddddddddddddddddddddd....................................................................\
    .ddddddddddddddddddddddddddddl......................................................................\
    .ddddddddddddddddddddddddddddddd....................................................................\
    .dddddddddddddddddddddddddddddd.....................................................................\
    .ddddddddddddddddddddddddddddddd....................................................................\
    .dddddddddddddddddddddddddddddd.....................................................................\
    .ddddddddddddddddddddddddddddddd....................................................................\
    .ddddddddddddddddddddddddddddddd....................................................................\
    .dddddddddddddddddddddddddddddd.....................................................................\
    .ddddddddddddddddddddddddddddddd....................................................................\
    .dddddddddddddddddddddddddddddd.....................................................................\
    .ddddddddddddddddddddddddddddddd....................................................................";

fn is_leap(year: u32) -> bool
    ensures { result ≡ leap year }
{
    if year % 4 == 0 {
        if year % 100 == 0 {
            return year % 400 == 0;
        }
        return true;
    }
    false
}

// How many days a month has in a common year, as 2001 is: none past the twelfth.
fn common_days(month: u32) -> u32
    ensures { result ≡ days_in 2001 month }
{
    if 12 < month {
        return 0;
    }
    LENGTHS[month as usize]
}

// Whether a number is a day of the calendar within the limits. The year is looked at for 29 February alone, the one day that a common year lacks.
pub fn is_day(x: u32) -> bool
    ensures { result ≡ is_day x }
{
    if x < 20000101 {
        return false;
    }
    if 21991231 < x {
        return false;
    }
    let day = x % 100;
    if day == 0 {
        return false;
    }
    if day <= common_days(x / 100 % 100) {
        return true;
    }
    if x % 10000 == 229 {
        return is_leap(x / 10000);
    }
    false
}

// Whether document d is in force on a day: its first and its last day are both included.
pub fn in_force(days: &[u32], day: u32, d: usize) -> bool
    requires { 2 * d + 2 ≤ length days.now }
    ensures { result ≡ in_force days.now day d }
{
    let at = 2 * d;
    if day < days[at] {
        return false;
    }
    day <= days[at + 1]
}

// Whether month and day of a number are of its year. The table is lent, so that a loop lays it out once: for many days it is faster than their parts.
fn in_year(x: u32, table: &[u8; 1300]) -> bool
    requires { table.now ≡ kinds }
    ensures { result ≡ in_year x }
{
    let place = x % 10000;
    if 1300 <= place {
        return false;
    }
    let kind = table[place as usize];
    if kind == b'd' {
        return true;
    }
    if kind == b'l' {
        return is_leap(x / 10000);
    }
    false
}

// Whether the two days of document d are days of the calendar, the first not after the last: so each is held to one limit alone.
fn pair_holds(days: &[u32], d: usize, table: &[u8; 1300]) -> bool
    requires d_in_bounds { 2 * d + 2 ≤ length days.now }
    requires table_value { table.now ≡ kinds }
    ensures { result ≡ pair_holds days.now d }
{
    let at = 2 * d;
    let first = days[at];
    let last = days[at + 1];
    if first < 20000101 {
        return false;
    }
    if 21991231 < last {
        return false;
    }
    if last < first {
        return false;
    }
    if in_year(first, table) {
        return in_year(last, table);
    }
    false
}

// Whether there are just two days a document, all days and the asked one are of the calendar, and no first day is after the last: else it is refusal 20.
pub fn days_hold(days: &[u32], day: u32, documents: usize) -> bool
    requires { documents ≤ 4096 }
    ensures { result ≡ days_hold documents days.now day }
{
    let table = KINDS;
    if days.len() != 2 * documents {
        return false;
    }
    if !is_day(day) {
        return false;
    }
    for d in 0..documents {
        if !pair_holds(days, d, &table) {
            return false;
        }
    }
    true
}
