// Counts and sums over what settle and ground write.

ghost use Rattle.std.specs.Prelude.{◌≤◌, length};

use findings::NONE;

// How many of the items are this one.
pub fn how_many<T: PartialEq + Copy>(list: &[T], item: T) -> usize
    ensures { result ≤ length list.now }
{
    list.iter().filter(|x| **x == item).count()
}

fn wide(x: u16) -> usize
    ensures { result ≤ 65535 }
{
    if x == NONE { 0 } else { x as usize }
}

// The sum of the first n numbers, where 65535 counts for nothing.
pub fn sum(list: &[u16], n: usize) -> usize
    requires { n ≤ 410 }
{
    let mut total = 0;
    for x in &list[..n.min(list.len())] {
        total += wide(*x);
    }
    total
}
