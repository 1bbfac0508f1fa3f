// The sets of candidates, searched by size, then by number, for the first that ends the conflict.
// No heap: the cores lie in what is lent, and how many there are is told.

ghost use Rattle.std.specs.Prelude.{◌≡◌, true, cond, suc, ◌+◌, ◌*◌, ◌^◌, ◌<◌, ◌≤◌, ltb, length, set};
ghost use Rattle.meaning.specs.Tests.{all};
ghost use Rattle.findings.specs.Ranks.{found};
ghost use Rattle.candidates.specs.Sets.{size};
ghost use Rattle.least.specs.Least.{ends};
ghost use Rattle.board.specs.Furnaces.{is_furnace, held_by};
ghost use Rattle.board.specs.Faults.{good_board};
ghost use Rattle.board.specs.Ranking.{rows_on};
ghost use Rattle.candidates.specs.Given.{most_candidates};
ghost use Rattle.least.specs.Withdrawing.{least_at};
ghost use Rattle.least.specs.Search.{misses_one, worth_trying, Searched, Looked};

use crate::effects::effect_of;
use board::Board;
use candidates::sets::{power, size_of};

// How far the search is: the set that was found, if one was, and how many cores are kept.
#[derive(Clone, Copy)]
struct Progress {
    found: Option<usize>,
    cores: usize,
}

// Whether some core has no candidate of the set.
fn misses_one(cores: &[u16], set: usize) -> bool
    ensures { result ≡ misses_one cores.now set }
{
    cores.iter().any(|core| usize::from(*core) & set == 0)
}

// Whether a set has k candidates, and one of every core.
fn worth_trying(cores: &[u16], n: usize, k: usize, set: usize) -> bool
    requires { n ≤ most_candidates }
    ensures { result ≡ worth_trying cores.now n k set }
{
    if size_of(set, n) == k {
        !misses_one(cores, set)
    } else {
        false
    }
}

// Keeps one core more; where there is no room it is forgotten, and sets that miss it are tried. Returns how many are kept.
fn keep(core: usize, known: usize, cores: &mut [u16]) -> usize
    requires { (core < 65536) × (known ≤ length cores.old) }
    ensures value { result ≡ cond (ltb known (length cores.old)) (known + 1) known }
    ensures cores_after { cores.new ≡ set cores.old known core }
{
    if known < cores.len() {
        cores[known] = core as u16;
        return known + 1;
    }
    known
}

// Tries a set: it ends the conflict and is found, or there is one core more.
fn try_set(
    board: Board,
    table: &[i16],
    furnace: u8,
    places: &[usize],
    set: usize,
    known: usize,
    cores: &mut [u16],
) -> Progress
    requires board_value { (good_board table.now board ≡ true) × (is_furnace furnace ≡ true) }
    requires places_len_bound { (length places.now ≤ most_candidates) × (all (λ p. ltb p (2 * board.symbols)) places.now ≡ true)
        × (set < 2 ^ length places.now) }
    requires searched { Searched (ends (2 * board.symbols) (rows_on table.now board) (held_by board furnace) places.now) (length places.now)
        (size (length places.now) set) set known cores.old }
    ensures { Looked (ends (2 * board.symbols) (rows_on table.now board) (held_by board furnace) places.now)
        (least_at table.now board furnace places.now) (length places.now)
        (size (length places.now) set) (suc set) result cores.new }
{
    match effect_of(board, table, furnace, places, set) {
        None => Progress {
            found: Some(set),
            cores: known,
        },
        Some(core) => Progress {
            found: None,
            cores: keep(core, known, cores),
        },
    }
}

// Tries the sets of k candidates by number, until one ends the conflict. The first such number has the k lowest bits, and the last the k highest.
fn search_size(
    board: Board,
    table: &[i16],
    furnace: u8,
    places: &[usize],
    k: usize,
    known: usize,
    cores: &mut [u16],
) -> Progress
    requires board_value { (good_board table.now board ≡ true) × (is_furnace furnace ≡ true) }
    requires places_len_bound { (length places.now ≤ most_candidates) × (all (λ p. ltb p (2 * board.symbols)) places.now ≡ true) × (k ≤ length places.now) }
    requires searched { Searched (ends (2 * board.symbols) (rows_on table.now board) (held_by board furnace) places.now) (length places.now) k 0 known
        cores.old }
    ensures { Looked (ends (2 * board.symbols) (rows_on table.now board) (held_by board furnace) places.now)
        (least_at table.now board furnace places.now) (length places.now) (suc k) 0 result cores.new }
{
    let n = places.len();
    let first = power(k) - 1;
    let last = power(n) - power(n - k);
    let mut kept = known;
    for set in first..last + 1 {
        if worth_trying(&cores[..kept], n, k, set) {
            let tried = try_set(board, table, furnace, places, set, kept, cores);
            if tried.found.is_some() {
                return tried;
            }
            kept = tried.cores;
        }
    }
    Progress {
        found: None,
        cores: kept,
    }
}

// The first set, by size and then by number, that ends the conflict; that none does the caller has ruled out.
pub fn search(
    board: Board,
    table: &[i16],
    furnace: u8,
    places: &[usize],
    cores: &mut [u16],
) -> Option<usize>
    requires board_value { (good_board table.now board ≡ true) × (is_furnace furnace ≡ true) }
    requires places_len_bound { (length places.now ≤ most_candidates) × (all (λ p. ltb p (2 * board.symbols)) places.now ≡ true) }
    ensures { result ≡ found (least_at table.now board furnace places.now) }
{
    let mut kept = 0;
    for k in 0..places.len() + 1 {
        let tried = search_size(board, table, furnace, places, k, kept, cores);
        if tried.found.is_some() {
            return tried.found;
        }
        kept = tried.cores;
    }
    None
}
