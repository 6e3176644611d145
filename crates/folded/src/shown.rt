// The name shown for each row, looked up once.
ghost use Rattle.std.specs.Prelude.{◌≤◌, length};
ghost use Rattle.names.specs.Names.{shown};
ghost use Rattle.folded.specs.Shows.{Found};

use names::{Lists, Places};

// The names of the first `count` rows go to the front of the table.
pub(crate) fn find<'a>(lists: Lists<'a>, count: usize, names: &mut [&'a [u8]])
    requires { count ≤ length names.old }
    ensures { Found (shown lists.entry.project.now lists.entry.stock.now) count names.new }
{
    let mut from = Places {
        project: 0,
        stock: 0,
    };
    for row in 0..count {
        let ends = lists.ends(from);
        names[row] = lists.either(from, ends);
        from = lists.nexts(ends);
    }
}
