// The panel's calls: the sheet in force, the staged one and the sixteen places are lent. After a refusal the panel and a lent output are as they were.
// A call is lent what it uses and nothing else, as in C, so the three are no struct here.
#![tactic(auto)]

ghost use Rattle.run.specs.Call.{stage, switch, put_row, put_record, put_claim, fetch_record, fetch_row, image, build, repair, yield, shortest_row};
ghost use Rattle.expression.specs.Outcome.{number_in};
ghost use Rattle.record.specs.Outcome.{answer_of, judgement_of};
ghost use Rattle.places.specs.Memory.{memory};
ghost use Rattle.monitor.specs.CallContracts.{Changes, Stages, Puts, Drops, AnswersOn, AnswersUnder, AnswersFrom, Judges, NumbersOperand, FindsOperand, PlacesOperand};

use expression::bytes;
use expression::limits::MOST_RECORD_BYTES;
use expression::refusal::Refusal;
use places::limits::IMAGE_BYTES;
use places::{Place, Store};
use record::operands::Part;
use sheet::Sheet;

mod in_use;
mod rebuild;

// The sheet of n operators, their kinds and the rules is judged, and staged in place of an earlier one.
#[tactic(auto, using(crate::proofs::SwitchWays::stage_ways))]
pub fn stage(staged: &mut Sheet, n: u32, bytes: &[u8]) -> Result<(), Refusal>
    ensures { Stages staged.old (stage n bytes.now) (number_in result) staged.new }
{
    staged.load(n, bytes)
}

// The staged sheet is in force, nothing is staged, and every held tree is the conflict-free tree of its row.
pub fn switch(sheet: &mut Sheet, staged: &mut Sheet, places: &mut Store) -> Result<(), Refusal>
    ensures { Changes (memory sheet.old staged.old places.old) switch (number_in result) (memory sheet.new staged.new places.new) }
{
    if !staged.is_loaded() {
        return Err(Refusal::NothingStaged);
    }
    if in_use::in_use(sheet, staged, places) {
        return Err(Refusal::InUse);
    }
    // By way of a local: words that are copied from lent to lent go by memmove, which the library does not ask for.
    let new = *staged;
    rebuild::all(&new, places);
    *sheet = new;
    *staged = Sheet::fresh();
    Ok(())
}

// The place holds the record of the row's tree.
pub fn put_row(sheet: &Sheet, places: &mut Store, place: u32, row: &[u8]) -> Result<(), Refusal>
    ensures { Puts sheet.now places.old (put_row place row.now) (number_in result) places.new }
{
    let place = Place::try_from(place)?;
    let mut buffer = [0u8; MOST_RECORD_BYTES];
    let length = parser::build_row(sheet, row, &mut buffer)?;
    places.put(place.at, &buffer[..length]);
    Ok(())
}

// The place holds the record of the conflict-free tree of the record's row.
pub fn put_record(
    sheet: &Sheet,
    places: &mut Store,
    place: u32,
    bytes: &[u8],
) -> Result<(), Refusal>
    ensures { Puts sheet.now places.old (put_record place bytes.now) (number_in result) places.new }
{
    let place = Place::try_from(place)?;
    let mut buffer = [0u8; MOST_RECORD_BYTES];
    let length = parser::repair_record(sheet, bytes, &mut buffer)?;
    places.put(place.at, &buffer[..length]);
    Ok(())
}

// The place holds the record as it was sent, where that is the record of the row's conflict-free tree.
pub fn put_claim(
    sheet: &Sheet,
    places: &mut Store,
    place: u32,
    row: &[u8],
    bytes: &[u8],
) -> Result<(), Refusal>
    ensures { Puts sheet.now places.old (put_claim place row.now bytes.now) (number_in result) places.new }
{
    let place = Place::try_from(place)?;
    claims::check_claim(sheet, row, bytes)?;
    places.put(place.at, bytes);
    Ok(())
}

// The place is empty.
pub fn drop_place(places: &mut Store, place: u32) -> Result<(), Refusal>
    ensures { Drops places.old place (number_in result) places.new }
{
    let place = Place::try_from(place)?;
    if places.held_record(place.at).is_empty() {
        return Err(Refusal::Empty);
    }
    places.clear(place.at);
    Ok(())
}

// The record that the place holds, at the front of `out`, and its length.
pub fn fetch_record(places: &Store, place: u32, out: &mut [u8]) -> Result<usize, Refusal>
    ensures { AnswersFrom places.now (fetch_record place out.old) (answer_of result) out.new }
{
    let place = Place::try_from(place)?;
    let bytes = places.held_record(place.at);
    if bytes.is_empty() {
        return Err(Refusal::Empty);
    }
    if out.len() < bytes.len() {
        return Err(Refusal::Short);
    }
    bytes::copy(bytes, out);
    Ok(bytes.len())
}

// The row of the tree that the place holds, at the front of `out`, and its length.
pub fn fetch_row(
    sheet: &Sheet,
    places: &Store,
    place: u32,
    out: &mut [u8],
) -> Result<usize, Refusal>
    ensures { AnswersOn sheet.now places.now (fetch_row place out.old) (answer_of result) out.new }
{
    let place = Place::try_from(place)?;
    let bytes = places.held_record(place.at);
    if bytes.is_empty() {
        return Err(Refusal::Empty);
    }
    record::yield_row(sheet, bytes, out)
}

// The image of the place, at the front of `out`, and its length.
pub fn image(places: &Store, place: u32, out: &mut [u8]) -> Result<usize, Refusal>
    ensures { AnswersFrom places.now (image place out.old) (answer_of result) out.new }
{
    let place = Place::try_from(place)?;
    if out.len() < IMAGE_BYTES {
        return Err(Refusal::Short);
    }
    places.draw(place.at, out);
    Ok(IMAGE_BYTES)
}

// The record of the row's tree, at the front of `out`, and its length.
#[tactic(auto, using(crate::proofs::AnswerWays::under_sheet_ways))]
pub fn build(sheet: &Sheet, row: &[u8], out: &mut [u8]) -> Result<usize, Refusal>
    ensures { AnswersUnder sheet.now (build row.now out.old) (answer_of result) out.new }
{
    parser::build_row(sheet, row, out)
}

// The record of the conflict-free tree of the record's row, at the front of `out`, and its length.
#[tactic(auto, using(crate::proofs::AnswerWays::under_sheet_ways))]
pub fn repair(sheet: &Sheet, bytes: &[u8], out: &mut [u8]) -> Result<usize, Refusal>
    ensures { AnswersUnder sheet.now (repair bytes.now out.old) (answer_of result) out.new }
{
    parser::repair_record(sheet, bytes, out)
}

// The conflict count of the record.
#[tactic(auto, using(crate::proofs::AnswerWays::judge_ways))]
pub fn judge(sheet: &Sheet, bytes: &[u8]) -> Result<u8, Refusal>
    ensures { Judges sheet.now bytes.now (judgement_of result) }
{
    record::judge(sheet, bytes)
}

// The row of the record's tree, at the front of `out`, and its length.
#[tactic(auto, using(crate::proofs::AnswerWays::under_sheet_ways))]
pub fn yield_row(sheet: &Sheet, bytes: &[u8], out: &mut [u8]) -> Result<usize, Refusal>
    ensures { AnswersUnder sheet.now (yield bytes.now out.old) (answer_of result) out.new }
{
    record::yield_row(sheet, bytes, out)
}

// The shortest row that means the same as the record's row, at the front of `out`, and its length.
#[tactic(auto, using(crate::proofs::AnswerWays::under_sheet_ways))]
pub fn shortest_row(sheet: &Sheet, bytes: &[u8], out: &mut [u8]) -> Result<usize, Refusal>
    ensures { AnswersUnder sheet.now (shortest_row bytes.now out.old) (answer_of result) out.new }
{
    brackets::shortest_row(sheet, bytes, out)
}

// Whether the operands of the record can be had.
pub fn check_operand(sheet: &Sheet, bytes: &[u8]) -> Result<(), Refusal>
    ensures { NumbersOperand sheet.now bytes.now (number_in result) }
{
    record::check_record(sheet, bytes)
}

// The record of the left or of the right operand of the top node: that part of `bytes`.
pub fn operand<'a, 'b>(sheet: &'a Sheet, bytes: &'b [u8], right: bool) -> &'b [u8]
    ensures { FindsOperand sheet.now right bytes.now result.now }
{
    record::operand(sheet, bytes, right)
}

// Where that operand stands in the record, for callers that are handed no part of it.
pub fn operand_part(sheet: &Sheet, bytes: &[u8], right: bool) -> Part
    ensures { PlacesOperand sheet.now right bytes.now result }
{
    record::operands::operand_part(sheet, bytes, right)
}
