//! A call that knows the forms `check` and `plain`, and no other.
ghost use Rattle.std.specs.Prelude.{◌≡◌, ◌↔◌, IfSome, None, Some};
ghost use Rattle.program_words.specs.Requests.{HasNumbersInRange, asked, asked_of};
ghost use Rattle.run_endings.specs.Answers.{IsOtherForm, IsRunFormAnswer, IsRunFormEnd, ending_of};
ghost use Rattle.run_endings.specs.Done.{IfFiles, IsRunFormDone};
ghost use Rattle.run_endings.specs.LoggedCollisions.{AreCollisionsLogged};

use crate::checks::check;
use crate::runs::plain;
use crate::world::World;
use outside::{Gate, Sink, Store};
use program_texts::{HELP, VERSION, WORDS_FAULT};
use program_words::{Request, Words, read_words};
use run_endings::Ending;
use std::alloc::Global;

/// Does what is asked for, unless that is another form: then it does nothing.
fn serve<S: Store, K: Sink, G: Gate>(
    alloc: Global,
    request: Request<'_>,
    world: &mut World<S, K>,
    gate: &G,
) -> Option<Result<(), Ending>>
    requires { HasNumbersInRange request }
    ensures ended { IfSome result (λ done. IsRunFormEnd (Some (asked_of request.entry)) world.old world.new (ending_of done)) }
    ensures other { result ≡ None → IsOtherForm (Some (asked_of request.entry)) }
    ensures left { result ≡ None → world.new ≡ world.old }
{
    match request {
        Request::Check { layout } => Some(check(alloc, layout, world)),
        Request::Plain { layout, prefix } => Some(plain(alloc, layout, prefix, gate, world)),
        Request::Help => Some(world.tell(HELP.as_bytes())),
        Request::Version => Some(world.tell(VERSION.as_bytes())),
        Request::Run { .. }
        | Request::Demo { .. }
        | Request::Slack { .. }
        | Request::Stop { .. }
        | Request::Resume { .. }
        | Request::Probe { .. }
        | Request::Meter { .. }
        | Request::Picture { .. }
        | Request::Frames { .. } => None,
    }
}

/// How what the words ask for ends, unless that is another form.
fn run_words<S: Store, K: Sink, G: Gate>(
    alloc: Global,
    words: &Words,
    world: &mut World<S, K>,
    gate: &G,
) -> Option<Ending>
    ensures ended { IfSome result (λ e. IsRunFormEnd (asked words.now) world.old world.new e) }
    ensures other { result ≡ None → IsOtherForm (asked words.now) }
    ensures left { result ≡ None → world.new ≡ world.old }
{
    let Some(request) = read_words(words) else {
        world.say(WORDS_FAULT.as_bytes());
        return Some(Ending::Words);
    };
    Some(Ending::of(serve(alloc, request, world, gate)?))
}

/// Does what the words ask for with `check`, `plain`, `--help` and `--version`, as the whole program does, and answers the
/// status; words of no form have the status 1. Words of another form have none, and nothing is done.
pub fn run_netsim<S: Store, K: Sink, G: Gate>(
    alloc: Global,
    words: &Words,
    world: &mut World<S, K>,
    gate: &G,
) -> Option<u8>
    // The status is that of an ending which the words allow between entry and exit. What each tells is a law of the
    // whole program's answers, of which this is one.
    ensures ended { IfSome result (λ status. IsRunFormAnswer words.now world.old world.new status) }

    // No status exactly where the words are of another form.
    ensures other { (result ≡ None) ↔ IsOtherForm (asked words.now) }

    // Then nothing is done.
    ensures left { result ≡ None → world.new ≡ world.old }

    // Status 0 only where what the words ask for is done, as the record of their form says: of `plain` the store holds the
    // files of the run, by the layout and the loads held at entry, and the sink got the summary; of `check` the sink got
    // the verdict, and every file is as at entry.
    ensures done { result ≡ Some 0 → IsRunFormDone (asked words.now) world.old world.new }

    // Of `plain`, where the sink got the verdict within: of two attempts of different stations that overlap over an open
    // path each that ends within the run has a whole line in PREFIX.log as the store holds it, with a hit before the
    // 512th bit.
    ensures detected { result ≡ Some 0 → IfFiles (asked words.now) (λ layout prefix.
        AreCollisionsLogged layout prefix world.old world.new) }
{
    Some(run_words(alloc, words, world, gate)?.status())
}
