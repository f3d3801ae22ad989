//! What is so after every history of a board, as contracts of functions that do nothing.
ghost use Rattle.board_core.specs.Laws.{DoneIsStaircase, SquaresAreFiledOnce, SquaresAreGivenOnce, FrontsAreGiven, SquaresAreOutOnce, OpenTakeIsHeld, HeldIsOpenTake, IdleWaitsForAnother, CauseIsTheFirst, DoneSquaresGrow, SomeSquareIsReady, BoardIsFinished, HistoryIsShort, RangeIsAll};

/// The done squares are a staircase: with each square, they have its parents.
pub fn done_is_staircase()
    ensures { DoneIsStaircase }
{}

/// No square is given twice, nor stands twice in the file, also if the board has stopped and opened in between: the file has
/// the squares of the start and then those that were put there, each once and after its parents. While the board runs these are
/// the squares that are done. In one run the squares that were put there are those that were given.
pub fn squares_are_given_once()
    ensures filed { SquaresAreFiledOnce }
    ensures given { SquaresAreGivenOnce }
{}

/// In one run each square that is given makes its row longer by one: a row has as many squares done as at the opening, and one
/// more for each Give in it.
pub fn fronts_are_given()
    ensures { FrontsAreGiven }
{}

/// A square that is out stands there once, is in the range, is not done, and has its parents done. The square that failed is
/// in the range, is not done, and has its parents done.
pub fn squares_are_out_once()
    ensures { SquaresAreOutOnce }
{}

/// Who has taken a square in this run, and since then has neither given it nor handed it back nor failed at it, has it still, whatever
/// the others have done.
pub fn open_take_is_held()
    ensures { OpenTakeIsHeld }
{}

/// Who has a square in this run has taken it, and has neither given it nor handed it back nor failed at it.
pub fn held_is_open_take()
    ensures { HeldIsOpenTake }
{}

/// Where squares of the range are unfinished, none is ready and no cause stands, some square is out: who has taken none that he has not
/// ended waits for another who has one.
pub fn idle_waits_for_another()
    ensures { IdleWaitsForAnother }
{
    some_square_is_ready();
    held_is_open_take();
}

/// The cause that stands in a run is that of its first Back or Fail: `Failed` where it is a Fail, `Memory` where it is a Back, and none
/// where there is neither.
pub fn cause_is_the_first()
    ensures { CauseIsTheFirst }
{}

/// In one run a square that is done stays done, and the number of done squares of a row never falls.
pub fn done_squares_grow()
    ensures { DoneSquaresGrow }
{}

/// While the board runs and no cause stands, with squares of the range unfinished and none out, some square is ready.
pub fn some_square_is_ready()
    ensures { SomeSquareIsReady }
{}

/// Two events for each unfinished square finish the board, if no Back, Fail or Stop is among them.
pub fn board_is_finished()
    ensures { BoardIsFinished }
{}

/// A run has at most two events for each square of the range that was not done at the opening, and these are at most all
/// squares of the range.
pub fn history_is_short()
    ensures twice { HistoryIsShort }
    ensures all { RangeIsAll }
{}
