// How many places of a list are lent: as many as are asked, all where there are fewer. What is promised is what a part of the list
// asks.
ghost use Rattle.std.specs.Prelude.{◌≡◌, ◌≤◌, length, take};

pub fn of<T>(list: &[T], n: usize) -> usize
    ensures { (result ≤ length list.now) × (result ≡ length (take result list.now)) }
{
    list.len().min(n)
}
