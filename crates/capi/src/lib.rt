// The calls for C and Rust, under names of their own. They take numbers and addresses alone: a list is an address and a length.
#![tactic(auto)]

ghost use Rattle.std.specs.Prelude.{◌≡◌};
ghost use Rattle.disambiguation.specs.SheetChecks.{rules_of};
ghost use Rattle.sheet.specs.Layout.{operators_of};
ghost use Rattle.sheet.specs.BindingPowers.{powers_in};
ghost use Rattle.witness.specs.Explaining.{Explains, ExplainsList};
ghost use Rattle.run.specs.Call.{stage, switch, put_row, put_record, put_claim, fetch_record, fetch_row, image, build, repair, yield, shortest_row};
ghost use Rattle.places.specs.Memory.{memory};
ghost use Rattle.monitor.specs.CallContracts.{Changes, Stages, Puts, Drops, AnswersOn, AnswersUnder, AnswersFrom, Judges, NumbersOperand, PlacesOperand};
ghost use Rattle.frame.specs.CallContracts.{Replies};

use expression::refusal;
use frame::limits::MOST_REPLY;
use places::Store;
use record::operands::Part;
use record::{Answer, Judgement};
use sheet::Sheet;
use sheet::powers::Powers;
use witness::lists;

// The count of operators of the sheet in force, n.
#[unsafe(no_mangle)]
pub extern "C" fn tihvomen_operators(sheet: &Sheet) -> u8
    ensures { result ≡ (operators_of sheet.now).count }
{
    sheet.operator_count()
}

// The bytes are those of a sheet frame after n: n kind bytes, then the rules.
#[unsafe(no_mangle)]
pub extern "C" fn tihvomen_stage(staged: &mut Sheet, n: u32, bytes: &[u8]) -> u8
    ensures { Stages staged.old (stage n bytes.now) result staged.new }
{
    refusal::number(&monitor::stage(staged, n, bytes))
}

#[unsafe(no_mangle)]
pub extern "C" fn tihvomen_switch(sheet: &mut Sheet, staged: &mut Sheet, places: &mut Store) -> u8
    ensures { Changes (memory sheet.old staged.old places.old) switch result (memory sheet.new staged.new places.new) }
{
    refusal::number(&monitor::switch(sheet, staged, places))
}

#[unsafe(no_mangle)]
pub extern "C" fn tihvomen_put_row(sheet: &Sheet, places: &mut Store, place: u32, row: &[u8]) -> u8
    ensures { Puts sheet.now places.old (put_row place row.now) result places.new }
{
    refusal::number(&monitor::put_row(sheet, places, place, row))
}

#[unsafe(no_mangle)]
pub extern "C" fn tihvomen_put_record(
    sheet: &Sheet,
    places: &mut Store,
    place: u32,
    bytes: &[u8],
) -> u8
    ensures { Puts sheet.now places.old (put_record place bytes.now) result places.new }
{
    refusal::number(&monitor::put_record(sheet, places, place, bytes))
}

#[unsafe(no_mangle)]
pub extern "C" fn tihvomen_put_claim(
    sheet: &Sheet,
    places: &mut Store,
    place: u32,
    row: &[u8],
    bytes: &[u8],
) -> u8
    ensures { Puts sheet.now places.old (put_claim place row.now bytes.now) result places.new }
{
    refusal::number(&monitor::put_claim(sheet, places, place, row, bytes))
}

#[unsafe(no_mangle)]
pub extern "C" fn tihvomen_drop(places: &mut Store, place: u32) -> u8
    ensures { Drops places.old place result places.new }
{
    refusal::number(&monitor::drop_place(places, place))
}

#[unsafe(no_mangle)]
pub extern "C" fn tihvomen_fetch_record(places: &Store, place: u32, out: &mut [u8]) -> Answer
    ensures { AnswersFrom places.now (fetch_record place out.old) result out.new }
{
    monitor::fetch_record(places, place, out).into()
}

#[unsafe(no_mangle)]
pub extern "C" fn tihvomen_fetch_row(
    sheet: &Sheet,
    places: &Store,
    place: u32,
    out: &mut [u8],
) -> Answer
    ensures { AnswersOn sheet.now places.now (fetch_row place out.old) result out.new }
{
    monitor::fetch_row(sheet, places, place, out).into()
}

#[unsafe(no_mangle)]
pub extern "C" fn tihvomen_image(places: &Store, place: u32, out: &mut [u8]) -> Answer
    ensures { AnswersFrom places.now (image place out.old) result out.new }
{
    monitor::image(places, place, out).into()
}

#[unsafe(no_mangle)]
pub extern "C" fn tihvomen_build(sheet: &Sheet, row: &[u8], out: &mut [u8]) -> Answer
    ensures { AnswersUnder sheet.now (build row.now out.old) result out.new }
{
    monitor::build(sheet, row, out).into()
}

#[unsafe(no_mangle)]
pub extern "C" fn tihvomen_repair(sheet: &Sheet, bytes: &[u8], out: &mut [u8]) -> Answer
    ensures { AnswersUnder sheet.now (repair bytes.now out.old) result out.new }
{
    monitor::repair(sheet, bytes, out).into()
}

#[unsafe(no_mangle)]
pub extern "C" fn tihvomen_judge(sheet: &Sheet, bytes: &[u8]) -> Judgement
    ensures { Judges sheet.now bytes.now result }
{
    monitor::judge(sheet, bytes).into()
}

#[unsafe(no_mangle)]
pub extern "C" fn tihvomen_yield(sheet: &Sheet, bytes: &[u8], out: &mut [u8]) -> Answer
    ensures { AnswersUnder sheet.now (yield bytes.now out.old) result out.new }
{
    monitor::yield_row(sheet, bytes, out).into()
}

#[unsafe(no_mangle)]
pub extern "C" fn tihvomen_shortest_row(sheet: &Sheet, bytes: &[u8], out: &mut [u8]) -> Answer
    ensures { AnswersUnder sheet.now (shortest_row bytes.now out.old) result out.new }
{
    monitor::shortest_row(sheet, bytes, out).into()
}

// The number of an operand call, for either side.
#[unsafe(no_mangle)]
pub extern "C" fn tihvomen_operand_number(sheet: &Sheet, bytes: &[u8]) -> u8
    ensures { NumbersOperand sheet.now bytes.now result }
{
    refusal::number(&monitor::check_operand(sheet, bytes))
}

// The place of an operand in the caller's record.
#[unsafe(no_mangle)]
pub extern "C" fn tihvomen_operand(sheet: &Sheet, bytes: &[u8], right: bool) -> Part
    ensures { PlacesOperand sheet.now right bytes.now result }
{
    monitor::operand_part(sheet, bytes, right)
}

// Why the sheet of n operators, with the kinds and rules of the bytes, is refused.
#[unsafe(no_mangle)]
pub extern "C" fn tihvomen_explain(n: u32, bytes: &[u8], out: &mut [u8]) -> Answer
    ensures { Explains n bytes.now out.old out.new result }
{
    witness::explain(n, bytes, out).into()
}

// The same with the kinds and the rules as two lists: of the rules the bytes, three a rule.
#[unsafe(no_mangle)]
pub extern "C" fn tihvomen_explain_rules(
    n: u32,
    kinds: &[u8],
    rules: &[u8],
    out: &mut [u8],
) -> Answer
    ensures { ExplainsList n kinds.now (rules_of rules.now) out.old out.new result }
{
    lists::explain_list(n, kinds, rules, out).into()
}

// The binding powers of an operator.
#[unsafe(no_mangle)]
pub extern "C" fn tihvomen_powers(sheet: &Sheet, operator: u32) -> Powers
    ensures { result ≡ powers_in sheet.now operator }
{
    sheet.powers_of(operator).into()
}

// The reply to a line: its length.
#[unsafe(no_mangle)]
pub extern "C" fn tihvomen_reply(
    sheet: &mut Sheet,
    staged: &mut Sheet,
    places: &mut Store,
    line: &[u8],
    out: &mut [u8; MOST_REPLY],
) -> usize
    ensures { Replies (memory sheet.old staged.old places.old) line.now out.old out.new (memory sheet.new staged.new places.new) result }
{
    frame::reply(sheet, staged, places, line, out)
}
