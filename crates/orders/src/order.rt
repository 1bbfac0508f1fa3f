// What a line orders, by its first word.

ghost use Rattle.std.specs.Prelude.{◌≡◌};
ghost use Rattle.orders.specs.Orders.{order_at, order_of, slot_of_order};

use names::naming::run;
use names::slots::find;

#[derive(Clone, Copy)]
pub enum Order {
    Open,
    Name,
    Rule,
    Hold,
    Drop,
    Push,
    Pop,
    Valve,
    Pairs,
    Furnace,
    Ask,
    Why,
    Ground,
    Marks,
    Blame,
    Least,
    Sets,
    Rows,
    Cnf,
    Echo,
    Help,
    Unknown,
    Nothing,
}

// The slot of a word in the table of first words, eight bytes each, if it is one of them.
fn slot_of_order(word: &[u8]) -> Option<usize>
    ensures { result ≡ slot_of_order word.now }
{
    find(
        b"open\0\0\0\0name\0\0\0\0rule\0\0\0\0hold\0\0\0\0drop\0\0\0\0push\0\0\0\0\
          pop\0\0\0\0\0valve\0\0\0pairs\0\0\0furnace\0ask\0\0\0\0\0why\0\0\0\0\0ground\0\0\
          marks\0\0\0blame\0\0\0least\0\0\0sets\0\0\0\0rows\0\0\0\0cnf\0\0\0\0\0echo\0\0\0\0help\0\0\0\0",
        8,
        21,
        word,
    )
}

// The order of a slot.
fn order_at(slot: Option<usize>) -> Order
    ensures { result ≡ order_at slot }
{
    match slot {
        Some(0) => Order::Open,
        Some(1) => Order::Name,
        Some(2) => Order::Rule,
        Some(3) => Order::Hold,
        Some(4) => Order::Drop,
        Some(5) => Order::Push,
        Some(6) => Order::Pop,
        Some(7) => Order::Valve,
        Some(8) => Order::Pairs,
        Some(9) => Order::Furnace,
        Some(10) => Order::Ask,
        Some(11) => Order::Why,
        Some(12) => Order::Ground,
        Some(13) => Order::Marks,
        Some(14) => Order::Blame,
        Some(15) => Order::Least,
        Some(16) => Order::Sets,
        Some(17) => Order::Rows,
        Some(18) => Order::Cnf,
        Some(19) => Order::Echo,
        Some(20) => Order::Help,
        _ => Order::Unknown,
    }
}

// The order of a first word: nothing where there is none, or where it begins with `#`. A byte that is none of a name, a zero for one, makes it no
// word of the table.
pub fn order_of(word: &[u8]) -> Order
    ensures { result ≡ order_of word.now }
{
    if word.len() == 0 {
        return Order::Nothing;
    }
    if word[0] == b'#' {
        return Order::Nothing;
    }
    if run(word) != word.len() {
        return Order::Unknown;
    }
    order_at(slot_of_order(word))
}
