// A placement that is asked for.
ghost use Rattle.place_tests.specs.Called.{Called};

use reader::pieces::Pieces;
use reader::read_list::ReadList;

// A list that asks for a placement, and its pieces. Whoever makes one shows that it meets none of refusals 2, 22 and 3.
#[derive(Clone, Copy, Drop)]
pub struct Placement<'a> {
    pub read: &'a ReadList<'a>,
    pub pieces: Pieces<'a>,
    pub ghost called: { Called read.now pieces },
}
