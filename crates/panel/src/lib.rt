// The C boundary: each exported function is a call of `board`, `stack`, `positions`, `smallest`, `least`, `dimacs` or `text` and nothing else.
// include/tupahineka.h declares them.
#![tactic(auto)]

mod crossing;
mod steps;

ghost use Rattle.std.specs.Prelude.{◌≡◌, ◌-◌};
ghost use Rattle.board.specs.Faults.{number_in};
ghost use Rattle.board.specs.Changes.{hold_answer};
ghost use Rattle.board.specs.Rules.{ruled, ruled_table};
ghost use Rattle.board.specs.Settling.{settle_outcome, settled_labels, settled_ranks, settled_supports, RanksBounded};
ghost use Rattle.board.specs.Asking.{asked, asked_whole, explain_numbers, explain_part};
ghost use Rattle.board.specs.Grounds.{ground_outcome, ground_marks, blame_outcome, blame_marks};
ghost use Rattle.stack.specs.Steps.{opened_with, withdrawn_with, pushed, popped};
ghost use Rattle.positions.specs.Entering.{variable_of, pairs_of, entered, entered_table};
ghost use Rattle.smallest.specs.Listing.{smallest_answer, smallest_sets};
ghost use Rattle.least.specs.Withdrawing.{least_answer};
ghost use Rattle.dimacs.specs.Reading.{read_answer, read_table};
ghost use Rattle.dimacs.specs.Writing.{write_answer, write_bytes};
ghost use Rattle.text.specs.Adding.{ruled_text, ruled_text_table};
ghost use Rattle.text.specs.Reading.{read_text_answer, read_text_bytes};
ghost use Rattle.text.specs.Writing.{write_text_answer, write_text_bytes};
ghost use Rattle.panel.specs.Crossing.{board_in, opened_out, change_out, addition_out, answer_out, reason_out, reading_out, writing_out, spelling_out};
ghost use Rattle.panel.specs.Crossing.{listing_out, withdrawal_out};

use crate::crossing::{
    addition_out, answer_out, board_in, change_out, listing_out, number_of, reading_out,
    spelling_out, withdrawal_out, writing_out,
};
use crate::steps::{open_step, pop_step, push_step, withdraw_step};
use literals::WIDTH;
use stack::Stacks;

// The structs of the header stand as C reads them: numbers of fixed width, a refusal's beside what is told.

// A board as C has it: any byte other than 0 is a premise held. `first` and `second`, the premises of furnaces 1 and 2, are the header's `held`.
#[repr(C)]
#[derive(Clone, Copy)]
pub struct PanelBoard {
    pub symbols: u16,
    pub rows: u16,
    pub rules: u16,
    pub first: [u8; 400],
    pub second: [u8; 400],
}

#[repr(C)]
#[derive(Clone, Copy)]
pub struct PanelChange {
    pub refusal: u8,
    pub board: PanelBoard,
}

#[repr(C)]
#[derive(Clone, Copy)]
pub struct PanelAddition {
    pub refusal: u8,
    pub place: usize,
    pub added: u16,
    pub board: PanelBoard,
}

#[repr(C)]
#[derive(Clone, Copy)]
pub struct PanelReading {
    pub refusal: u8,
    pub clauses: u16,
    pub added: u16,
    pub board: PanelBoard,
}

#[repr(C)]
#[derive(Clone, Copy)]
pub struct PanelWriting {
    pub refusal: u8,
    pub bytes: usize,
}

#[repr(C)]
#[derive(Clone, Copy)]
pub struct PanelSpelling {
    pub refusal: u8,
    pub place: usize,
    pub bytes: usize,
}

#[repr(C)]
#[derive(Clone, Copy)]
pub struct PanelListing {
    pub refusal: u8,
    pub count: usize,
}

#[repr(C)]
#[derive(Clone, Copy)]
pub struct PanelWithdrawal {
    pub refusal: u8,
    pub set: u16,
}

#[repr(C)]
#[derive(Clone, Copy)]
pub struct PanelAnswer {
    pub refusal: u8,
    pub standing: u8,
}

#[repr(C)]
#[derive(Clone, Copy)]
pub struct PanelReason {
    pub refusal: u8,
    pub literals: u8,
    pub rank: u16,
    pub row: u16,
    pub rule: u16,
}

// The four calls that are lent the record are thin: each copies it out from behind the reference, and stores what `steps` made of it.

#[unsafe(no_mangle)]
pub extern "C" fn tup_open(symbols: u16, stacks: &mut Stacks) -> PanelChange
    ensures value { result ≡ opened_out (opened_with symbols stacks.old).change }
    ensures stacks_after { stacks.new ≡ (opened_with symbols stacks.old).stacks }
{
    let step = open_step(symbols, *stacks);
    let next = step.stacks;
    *stacks = next;
    step.change
}

#[unsafe(no_mangle)]
pub extern "C" fn tup_withdraw(
    given: PanelBoard,
    table: &[i16],
    stacks: &mut Stacks,
    furnace: u8,
    l: i16,
) -> PanelChange
    ensures value { result ≡ change_out given (withdrawn_with table.now (board_in given) stacks.old furnace l).change }
    ensures stacks_after { stacks.new ≡ (withdrawn_with table.now (board_in given) stacks.old furnace l).stacks }
{
    let step = withdraw_step(given, table, *stacks, furnace, l);
    let next = step.stacks;
    *stacks = next;
    step.change
}

#[unsafe(no_mangle)]
pub extern "C" fn tup_push(
    given: PanelBoard,
    table: &[i16],
    stacks: &mut Stacks,
    furnace: u8,
    l: i16,
) -> PanelChange
    ensures value { result ≡ change_out given (pushed table.now (board_in given) stacks.old furnace l).change }
    ensures stacks_after { stacks.new ≡ (pushed table.now (board_in given) stacks.old furnace l).stacks }
{
    let step = push_step(given, table, *stacks, furnace, l);
    let next = step.stacks;
    *stacks = next;
    step.change
}

#[unsafe(no_mangle)]
pub extern "C" fn tup_pop(
    given: PanelBoard,
    table: &[i16],
    stacks: &mut Stacks,
    furnace: u8,
) -> PanelChange
    ensures value { result ≡ change_out given (popped table.now (board_in given) stacks.old furnace).change }
    ensures stacks_after { stacks.new ≡ (popped table.now (board_in given) stacks.old furnace).stacks }
{
    let step = pop_step(given, table, *stacks, furnace);
    let next = step.stacks;
    *stacks = next;
    step.change
}

#[unsafe(no_mangle)]
pub extern "C" fn tup_rule(given: PanelBoard, table: &mut [i16], bytes: &[u8]) -> PanelAddition
    ensures value { result ≡ addition_out given (ruled table.old (board_in given) bytes.now) }
    ensures table_after { table.new ≡ ruled_table table.old (board_in given) bytes.now }
{
    let addition = board::rules::add_rule(board_in(given), table, bytes);
    addition_out(given, addition)
}

#[unsafe(no_mangle)]
pub extern "C" fn tup_read_dimacs(given: PanelBoard, table: &mut [i16], text: &[u8]) -> PanelReading
    ensures value { result ≡ reading_out given (read_answer table.old (board_in given) text.now) }
    ensures table_after { table.new ≡ read_table table.old (board_in given) text.now }
{
    let reading = dimacs::reading::read(board_in(given), table, text);
    reading_out(given, reading)
}

#[unsafe(no_mangle)]
pub extern "C" fn tup_write_dimacs(given: PanelBoard, table: &[i16], out: &mut [u8]) -> PanelWriting
    ensures value { result ≡ writing_out (write_answer table.now (board_in given) out.old) }
    ensures out_after { out.new ≡ write_bytes table.now (board_in given) out.old }
{
    let writing = dimacs::writing::write(board_in(given), table, out);
    writing_out(writing)
}

#[unsafe(no_mangle)]
pub extern "C" fn tup_read_text(
    given: PanelBoard,
    table: &[i16],
    text: &[u8],
    out: &mut [u8],
) -> PanelSpelling
    ensures value { result ≡ spelling_out (read_text_answer table.now (board_in given) text.now out.old) }
    ensures out_after { out.new ≡ read_text_bytes table.now (board_in given) text.now out.old }
{
    let spelling = text::reading::read(board_in(given), table, text, out);
    spelling_out(spelling)
}

#[unsafe(no_mangle)]
pub extern "C" fn tup_rule_text(given: PanelBoard, table: &mut [i16], text: &[u8]) -> PanelAddition
    ensures value { result ≡ addition_out given (ruled_text table.old (board_in given) text.now) }
    ensures table_after { table.new ≡ ruled_text_table table.old (board_in given) text.now }
{
    let addition = text::adding::add_text(board_in(given), table, text);
    addition_out(given, addition)
}

#[unsafe(no_mangle)]
pub extern "C" fn tup_write_text(
    given: PanelBoard,
    table: &[i16],
    bytes: &[u8],
    out: &mut [u8],
) -> PanelSpelling
    ensures value { result ≡ spelling_out (write_text_answer table.now (board_in given) bytes.now out.old) }
    ensures out_after { out.new ≡ write_text_bytes table.now (board_in given) bytes.now out.old }
{
    let spelling = text::writing::write(board_in(given), table, bytes, out);
    spelling_out(spelling)
}

#[unsafe(no_mangle)]
pub extern "C" fn tup_add_positions(
    given: PanelBoard,
    table: &mut [i16],
    first: u16,
    count: u16,
) -> PanelAddition
    ensures value { result ≡ addition_out given (entered table.old (board_in given) (variable_of first count)) }
    ensures table_after { table.new ≡ entered_table table.old (board_in given) (variable_of first count) }
{
    let addition = positions::variables::add_positions(
        board_in(given),
        table,
        first as usize,
        count as usize,
    );
    addition_out(given, addition)
}

#[unsafe(no_mangle)]
pub extern "C" fn tup_add_pairs(
    given: PanelBoard,
    table: &mut [i16],
    first: u16,
    count: u16,
    other: u16,
    others: u16,
    pairs: u64,
) -> PanelAddition
    ensures value { result ≡ addition_out given (entered table.old (board_in given) (pairs_of first count other others pairs)) }
    ensures table_after { table.new ≡ entered_table table.old (board_in given) (pairs_of first count other others pairs) }
{
    let addition = positions::pairs::add_pairs(
        board_in(given),
        table,
        first as usize,
        count as usize,
        other as usize,
        others as usize,
        pairs as usize,
    );
    addition_out(given, addition)
}

#[unsafe(no_mangle)]
pub extern "C" fn tup_smallest(
    given: PanelBoard,
    table: &[i16],
    candidates: &[i16],
    l: i16,
    sets: &mut [u16],
) -> PanelListing
    ensures value { result ≡ listing_out (smallest_answer table.now (board_in given) candidates.now l sets.old) }
    ensures sets_after { sets.new ≡ smallest_sets table.now (board_in given) candidates.now l sets.old }
{
    let listing = smallest::call::smallest(board_in(given), table, candidates, l, sets);
    listing_out(listing)
}

#[unsafe(no_mangle)]
pub extern "C" fn tup_hold(given: PanelBoard, table: &[i16], furnace: u8, l: i16) -> PanelChange
    ensures { result ≡ change_out given (hold_answer table.now (board_in given) furnace l) }
{
    let change = board::changes::hold(board_in(given), table, furnace, l);
    change_out(given, change)
}

#[unsafe(no_mangle)]
pub extern "C" fn tup_settle(
    given: PanelBoard,
    table: &[i16],
    furnace: u8,
    labels: &mut [u8],
    ranks: &mut [u16],
    supports: &mut [u16],
) -> u8
    ensures value { result ≡ number_in (settle_outcome table.now (board_in given) furnace
        labels.old ranks.old supports.old) }
    ensures labels_after { labels.new ≡ settled_labels table.now (board_in given) furnace
        labels.old ranks.old supports.old }
    ensures ranks_after { ranks.new ≡ settled_ranks table.now (board_in given) furnace
        labels.old ranks.old supports.old }
    ensures supports_after { supports.new ≡ settled_supports table.now (board_in given) furnace
        labels.old ranks.old supports.old }
    ensures ranks_bounded { result ≡ 0 → RanksBounded given.symbols ranks.new }
{
    let outcome = board::settling::settle(board_in(given), table, furnace, labels, ranks, supports);
    number_of(outcome)
}

#[unsafe(no_mangle)]
pub extern "C" fn tup_ask(given: PanelBoard, table: &[i16], furnace: u8, l: i16) -> PanelAnswer
    ensures { result ≡ answer_out (asked table.now (board_in given) furnace l) }
{
    let answer = board::asking::ask(board_in(given), table, furnace, l);
    answer_out(answer)
}

#[unsafe(no_mangle)]
pub extern "C" fn tup_ask_whole(
    given: PanelBoard,
    table: &[i16],
    furnace: u8,
    l: i16,
) -> PanelAnswer
    ensures { result ≡ answer_out (asked_whole table.now (board_in given) furnace l) }
{
    let answer = board::asking::ask_whole(board_in(given), table, furnace, l);
    answer_out(answer)
}

#[unsafe(no_mangle)]
pub extern "C" fn tup_explain(given: PanelBoard, table: &[i16], furnace: u8, l: i16) -> PanelReason
    ensures { result ≡ reason_out (explain_numbers table.now (board_in given) furnace l)
        ((explain_part table.now (board_in given) furnace l).stop - (explain_part table.now (board_in given) furnace l).start) }
{
    let reason = board::asking::explain_numbers(board_in(given), table, furnace, l);
    let outcome = reason.outcome;
    let literals = match outcome {
        Ok(()) => literals::literal_count(table, WIDTH * (reason.row as usize)) as u8,
        Err(_) => 0,
    };
    PanelReason {
        refusal: number_of(outcome),
        literals,
        rank: reason.rank,
        row: reason.row,
        rule: reason.rule,
    }
}

#[unsafe(no_mangle)]
pub extern "C" fn tup_ground(
    given: PanelBoard,
    table: &[i16],
    furnace: u8,
    l: i16,
    marks: &mut [u8],
) -> u8
    ensures value { result ≡ number_in (ground_outcome table.now (board_in given) furnace l marks.old) }
    ensures marks_after { marks.new ≡ ground_marks table.now (board_in given) furnace l marks.old }
{
    let outcome = board::grounds::ground(board_in(given), table, furnace, l, marks);
    number_of(outcome)
}

#[unsafe(no_mangle)]
pub extern "C" fn tup_blame(given: PanelBoard, table: &[i16], furnace: u8, marks: &mut [u8]) -> u8
    ensures value { result ≡ number_in (blame_outcome table.now (board_in given) furnace marks.old) }
    ensures marks_after { marks.new ≡ blame_marks table.now (board_in given) furnace marks.old }
{
    let outcome = board::grounds::blame(board_in(given), table, furnace, marks);
    number_of(outcome)
}

#[unsafe(no_mangle)]
pub extern "C" fn tup_least(
    given: PanelBoard,
    table: &[i16],
    furnace: u8,
    candidates: &[i16],
) -> PanelWithdrawal
    ensures { result ≡ withdrawal_out (least_answer table.now (board_in given) furnace candidates.now) }
{
    let withdrawal = least::call::least(board_in(given), table, furnace, candidates);
    withdrawal_out(withdrawal)
}
