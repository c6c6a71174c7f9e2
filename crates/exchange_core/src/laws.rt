//! Laws of shares: a call without a body for each.
ghost use Rattle.exchange_core.specs.Ties.{RunIsRun, SpoilIsSpoil, PostIsPost, TakeIsTake, ParcelsServe, PartsChange};
ghost use Rattle.exchange_core.specs.SharesOnBoards.{SharesBegin, SharesReserve, SharesRun, SharesSpoil, SharesPost, SharesTake, OthersStay};

pub use net_parts::laws::every_schedule;

/// A part that runs in a share runs on every board that has the part and its parcels as the share has them.
pub fn run_is_run()
    ensures { RunIsRun }
{}

/// A part that is given up in a share is given up on every such board.
pub fn spoil_is_spoil()
    ensures { SpoilIsSpoil }
{}

/// A parcel that leaves its place in a share goes into mail on every such board.
pub fn post_is_post()
    ensures { PostIsPost }
{}

/// A parcel that comes into its place in a share comes out of mail on every such board that has it so in mail.
pub fn take_is_take()
    ensures { TakeIsTake }
{}

/// The parcels that come to a part for a window, such as those with which a run begins, are those with which it is
/// added.
pub fn parcels_serve()
    ensures { ParcelsServe }
{}

/// A change of a part of a share is what is then found there.
pub fn parts_change()
    ensures { PartsChange }
{}

/// A share that is filled for a run is on the opening board: the board has all its parts, and the parcels at them, as
/// the share has them.
pub fn shares_begin()
    ensures { SharesBegin }
{}

/// Room that is made or refused leaves a share on the board.
pub fn shares_reserve()
    ensures { SharesReserve }
{}

/// Where a part of a share may run, it may run on the board, and then the whole share is on the board.
pub fn shares_run()
    ensures { SharesRun }
{}

/// Where a part of a share may be given up, it may be so on the board, and then the whole share is on the board.
pub fn shares_spoil()
    ensures { SharesSpoil }
{}

/// Where a share may post a parcel, it may go into mail on the board, and then the whole share is on the board.
pub fn shares_post()
    ensures { SharesPost }
{}

/// Where a share may take a parcel that is so in mail, it may come out of mail on the board, and then the whole share
/// is on the board.
pub fn shares_take()
    ensures { SharesTake }
{}

/// What happens to one share leaves every other share on the board.
pub fn others_stay()
    ensures { OthersStay }
{}
