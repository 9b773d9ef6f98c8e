// The extension parts of a payment, with the blanks that close its sections. Each part is handed on as a slice of its own.
#![tactic(auto)]

ghost use Rattle.std.specs.Prelude.{◌≡◌, take, drop};
ghost use Rattle.form.specs.Kind.{digits};
ghost use Rattle.form.specs.Place.{look_at, field_at, read_at};
ghost use Rattle.diskette.specs.Writing.{section, to_section_end, to_next_part};
ghost use Rattle.document.specs.Marks.{room_after, mark_ok};
ghost use Rattle.diskette.specs.Fields.{text27, mark_rules, closing_blanks, parts};
ghost use Rattle.layout.specs.Steps.{parts_at};
ghost use Rattle.fields.specs.Answers.{of_field, of_read, passings, numbers};

use fields::{Reading, Refusal, refusals};
use layout::{at, length, width};

// The layout in the numbers in which parts are counted: the most of them, the bytes of the second section behind C18, of a part, of a section.
pub const MOST_PARTS: u64 = length::MOST_PARTS as u64;

const BEHIND_C18: u64 = (length::SHORTEST_C - at::PARTS) as u64;

const PART: u64 = width::PART as u64;

const SECTION: u64 = length::SECTION as u64;

// The blanks behind the two parts that the second section takes.
const BEHIND_TWO: usize = length::SHORTEST_C - at::PARTS - 2 * width::PART;

// The blanks behind the four parts that the third to the fifth section take each.
const BEHIND_FOUR: usize = length::SECTION - 4 * width::PART;

// How many parts may still follow a part of this mark, where room parts could follow the one before it.
// A mark is a number here and in `mark_ok`, not an enum, because both answer for every number; a narrower type would ask more of callers.
pub fn room_after(mark: u64, room: u64) -> u64
    ensures { result ≡ room_after mark room }
{
    match mark {
        1 => 14,
        2 => room.min(14).saturating_sub(1),
        _ => 0,
    }
}

// Whether a part of this mark may stand where room parts can follow.
pub fn mark_ok(room: u64, mark: u64) -> bool
    ensures { result ≡ mark_ok room mark }
{
    match mark {
        1 => room == 15,
        2 => room >= 2,
        3 => room >= 1,
        _ => false,
    }
}

// The blanks from the end of part i to the end of its section.
#[tactic(auto, unfolding(diskette::specs::Writing::to_section_end))]
fn to_section_end(i: u64) -> usize
    ensures { result ≡ to_section_end i }
{
    if i <= 2 {
        return (BEHIND_C18 - PART * i) as usize;
    }
    (SECTION - PART * ((i - 3) % 4 + 1)) as usize
}

// The bytes of the part at p, or as many as the file still has.
fn part_at(s: &[u8], p: usize) -> &[u8]
    ensures { result.now ≡ take 29 (drop p s.now) }
{
    let rest = &s[p.min(s.len())..];
    &rest[..width::PART.min(rest.len())]
}

// The mark of a part, where left more parts are to come.
#[inline(always)]
fn mark_in(part: &[u8], room: u64, left: u64) -> Reading<(u64, usize)>
    ensures { result ≡ of_field numbers 0 2 (field_at (digits 2) (mark_rules room left) part.now 0) }
{
    let (mark, q) = fields::number_at(part, 0, width::MARK)?;
    if !mark_ok(room, mark) {
        return Err(fields::refuse(refusals::NO_MARK, 0));
    }
    if left > room_after(mark, room) {
        return Err(fields::refuse(refusals::NO_MARK, 0));
    }
    Ok((mark, q))
}

// The text of a part.
#[inline(always)]
fn words_in(part: &[u8]) -> Reading<usize>
    ensures { result ≡ of_field passings 2 29 (look_at text27 part.now 2) }
{
    fields::text_at(part, width::MARK)
}

// The blanks behind part i, before a next one: only behind a part that fills its section.
#[inline(always)]
fn closing_before(s: &[u8], p: usize, i: u64) -> Reading<usize>
    ensures { result ≡ of_read passings (read_at (closing_blanks (section i) (to_next_part i)) s.now p) }
{
    if i == 2 {
        return fields::blanks_at(s, p, BEHIND_TWO);
    }
    if (i == 6) | ((i == 10) | (i == 14)) {
        return fields::blanks_at(s, p, BEHIND_FOUR);
    }
    Ok(p)
}

// The blanks behind the last part, i.
#[inline(always)]
fn closing_behind(s: &[u8], p: usize, i: u64) -> Reading<usize>
    ensures { result ≡ of_read passings (read_at (closing_blanks (section i) (to_section_end i)) s.now p) }
{
    fields::blanks_at(s, p, to_section_end(i))
}

// How many parts the payment at p has, as its C18 tells; 0 where the file ends before that, or no digits stand there.
// 0 and no Option, since its clause and the definition `parts_at` answer so.
pub fn count_at(s: &[u8], p: usize) -> usize
    ensures { result ≡ parts_at s.now p }
{
    if !fields::whole(s.len(), p, at::PARTS) {
        return 0;
    }
    fields::number_at(s, p + at::C18, width::C18).map_or(0, |(k, _)| k as usize)
}

// The k parts of a payment from at on, with the blanks that close its sections.
#[inline(always)]
pub fn read_parts(s: &[u8], at: usize, k: u64) -> Reading<usize>
    ensures { result ≡ of_read passings (read_at (parts k 0 15) s.now at) }
{
    let mut p = at;
    let mut room: u64 = MOST_PARTS;
    for i in 0..k {
        // Each record reader takes the field's answer apart by `let .. else` and returns the refusal at once: a rule of the project.
        let closed = closing_before(s, p, i);
        let Ok(start) = closed else {
            return closed;
        };
        let part = part_at(s, start);
        let m = mark_in(part, room, k - i - 1);
        let Ok((mark, _)) = m else {
            return Err(Refusal {
                place: start,
                ..fields::why(m)
            });
        };
        let text = start + width::MARK;
        let w = words_in(part);
        let Ok(_) = w else {
            return Err(Refusal {
                place: text,
                ..fields::why(w)
            });
        };
        p = text + width::TEXT;
        room = room_after(mark, room);
    }
    closing_behind(s, p, k)
}
