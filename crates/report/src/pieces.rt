// Tries of many texts, given in one.

use std::io;

// Shows each piece of a list, each by itself. A byte `/`, which no piece has, stands between two.
pub fn each<F: Fn(&[u8]) -> io::Result<()>>(list: &[u8], show: F) -> io::Result<()>
    requires { F.IsAlwaysCallable show }
{
    list.split(|b| *b == b'/').try_for_each(show)
}
