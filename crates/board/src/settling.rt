// Settle: labels, ranks and supports into three lent tables.

ghost use Rattle.std.specs.Prelude.{◌≡◌, Ok};
ghost use Rattle.board.specs.Settling.{settle_outcome, settled_labels, settled_ranks, settled_supports, RanksBounded};

use crate::furnaces::premises;
use crate::testing::{good, is_furnace};
use crate::{Board, Outcome};
use literals::refusal::Refusal;

// Writes the labels, ranks and supports of a furnace, straight into the lent tables, since every test comes before. Each rank written is at most 2S
// or 65535.
pub fn settle(
    board: Board,
    table: &[i16],
    furnace: u8,
    labels: &mut [u8],
    ranks: &mut [u16],
    supports: &mut [u16],
) -> Outcome
    ensures value { result ≡ settle_outcome table.now board furnace labels.old ranks.old supports.old }
    ensures labels_after { labels.new ≡
        settled_labels table.now board furnace labels.old ranks.old supports.old }
    ensures ranks_after { ranks.new ≡
        settled_ranks table.now board furnace labels.old ranks.old supports.old }
    ensures supports_after { supports.new ≡
        settled_supports table.now board furnace labels.old ranks.old supports.old }
    ensures ranks_bounded { result ≡ Ok tt → RanksBounded board.symbols ranks.new }
{
    if !good(board, table) {
        return Err(Refusal::BadBoard);
    }
    if !is_furnace(furnace) {
        return Err(Refusal::BadFurnace);
    }
    let symbols = board.symbols;
    let places = 2 * symbols;
    if labels.len() < symbols || ranks.len() < places || supports.len() < places {
        return Err(Refusal::TableTooShort);
    }
    let held = premises(&board.first, &board.second, furnace);
    rounds::propagation::propagate(
        table,
        board.rows,
        held,
        &mut ranks[..places],
        0,
        &mut supports[..places],
    );
    findings::labels::write_labels(&ranks[..places], &mut labels[..symbols]);
    Ok(())
}
