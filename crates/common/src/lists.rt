// What every list of a caller's is left with.
ghost use Rattle.std.specs.Prelude.{◌≡◌, length, replicate};
ghost use Rattle.common.specs.Lists.{filled_from};

// Writes it at every place of the list.
fn fill<T: Copy>(list: &mut [T], with: T)
    ensures { list.new ≡ replicate (length list.old) with }
{
    for place in list {
        *place = with;
    }
}

// Fills a list from a place on; nothing where the place lies past its end.
pub fn fill_from<T: Copy>(list: &mut [T], from: usize, with: T)
    ensures { list.new ≡ filled_from list.old from with }
{
    if from < list.len() {
        fill(&mut list[from..], with);
    }
}
