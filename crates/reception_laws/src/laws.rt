//! Laws of receptions, of receivers alone and in the network of every plan: a call without a body for each.
ghost use Rattle.reception_laws.specs.NetworkReceptions.{AllowedOctetsStay, AwaitingReceiversWriteNothing, ClashesSpoilReceptions, DeafReceiversWriteNothing, GoodFramesAreReceived, LostBitsStay, OneLineOneVerdict, OneTextOneVerdict, ReceiversAwaitFirst, ReceiversAwaitNext, ReceiversFollow, ReceptionsAreUnderWay, ReceptionsEndAsTold, SendersTurnDeaf, ShortReceptionsAreFragments};
ghost use Rattle.reception_laws.specs.WholeReceptions.{ClashSpoilsText, GoodFrameIsReceived, IdleEndsReception, ShortTextIsFragment, TextIsUnderWay, WholeTextIsTold};

/// While a receiver that awaited a reception hears a text without sending, the text is its reception under
/// way (4.2.4).
pub fn text_is_under_way()
    ensures { TextIsUnderWay }
{}

/// A receiver that awaited a reception has the verdict of the text that it hears, whatever came before
/// (4.2.4).
pub fn whole_text_is_told()
    ensures { WholeTextIsTold }
{}

/// A receiver that loses no bits receives each good frame whose line text it hears whole (3.1.1, 4.2.4).
pub fn good_frame_is_received()
    ensures { GoodFrameIsReceived }
{}

/// A reception of fewer than 1,028 half bits is a fragment, whatever is heard in it: they can't hold the end
/// of the start frame delimiter and the least frame (3.2.2, 4.4.2).
pub fn short_text_is_fragment()
    ensures { ShortTextIsFragment }
{}

/// A Clash spoils a reception, unless it is among the half bits that are lost (profile).
pub fn clash_spoils_text()
    ensures { ClashSpoilsText }
{}

/// After a half bit of Idle without sending a receiver awaits a reception (4.2.4, profile).
pub fn idle_ends_reception()
    ensures { IdleEndsReception }
{}

/// In the network of a plan a receiver follows from what its station hears, where the station sends in each
/// half bit of a stretch, or in none.
pub fn receivers_follow()
    ensures { ReceiversFollow }
{}

/// How many bits a receiver loses of each reception, and how many octets a frame may have, stay what the
/// layout says.
pub fn receivers_keep_their_limits()
    ensures lost { LostBitsStay }
    ensures allowed { AllowedOctetsStay }
{}

/// A receiver awaits a reception before half bit 0, and after each half bit in which its station hears and
/// emits Idle. As long as it goes on so, a receiver that awaits one stays the same, and writes no row.
pub fn receivers_await()
    ensures first { ReceiversAwaitFirst }
    ensures next { ReceiversAwaitNext }
    ensures lasting { AwaitingReceiversWriteNothing }
{}

/// A receiver turns deaf where its station sends, and stays so as long as the station emits or hears a
/// signal. Nothing is written meanwhile, nor in the half bit that ends it (profile).
pub fn senders_are_deaf()
    ensures first { SendersTurnDeaf }
    ensures lasting { DeafReceiversWriteNothing }
{}

/// What a station has heard since its receiver awaited a reception is its reception under way, of which no
/// row was written so far.
pub fn receptions_are_under_way()
    ensures { ReceptionsAreUnderWay }
{}

/// A reception in the network of a plan has the verdict of the text that was heard in it.
pub fn receptions_end_as_told()
    ensures { ReceptionsEndAsTold }
{}

/// One text, one verdict: receptions with the same text have the same row and the same octets, whichever
/// stations of the network heard it, and when, if they lose as many bits.
pub fn one_text_one_verdict()
    ensures { OneTextOneVerdict }
{}

/// One line, one verdict: a reception of what one line alone has between two of its half bits has the verdict
/// of that text, however far the station is away, and so the same as each other station's that hears it and
/// loses as many bits.
pub fn one_line_one_verdict()
    ensures { OneLineOneVerdict }
{}

/// A reception of fewer than 1,028 half bits in the network of a plan is a fragment (4.4.2).
pub fn short_receptions_are_fragments()
    ensures { ShortReceptionsAreFragments }
{}

/// A Clash spoils the reception of a station that hears it, unless it is among the bits that the station
/// loses (profile).
pub fn clashes_spoil_receptions()
    ensures { ClashesSpoilReceptions }
{}

/// A station that loses no bits receives each good frame whose line text it hears whole in the network of a
/// plan (4.2.9).
pub fn good_frames_are_received()
    ensures { GoodFramesAreReceived }
{}
