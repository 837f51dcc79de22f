//! What the explored histories are, whichever they are.

ghost use Rattle.delay_bounded.specs.Examples.{WithOneDelay, WithoutDelays};
ghost use Rattle.delay_bounded.specs.Laws.{AreFinished, AreLegal, Begins, EndsFinished, GoesOver, HasNoGap, IsAll, IsComplete, IsCompleteOfFinished, IsOneAlone, IsWithinMore, NamesHaveForm, OneIsLowest};

/// The list for a bound begins the list for the next one.
pub fn bounds_begin()
    ensures { Begins }
{}

/// Without delays there is one history.
pub fn without_delays_one()
    ensures { IsOneAlone }
{}

/// Where no history has so many delays, none has one more.
pub fn no_gap()
    ensures { HasNoGap }
{}

/// Where no history has one delay more than a bound, a greater bound adds nothing.
pub fn is_all()
    ensures { IsAll }
{}

/// The histories with so many delays are, in their order, those walks within any greater bound that have the rest of its delays left.
pub fn within_more()
    ensures { IsWithinMore }
{}

/// Each explored history that can be counted is legal, and so mediated; none of its events is a `Skip`, and none is a step of a
/// worker above the limit; its schedule plays it.
pub fn explored_are_legal()
    ensures { AreLegal }
{}

/// Without a bound, each legal history without a `Skip` is explored that has no step of a worker above the limit, in which of the
/// workers without a notification in hand the lowest alone steps, and at whose end nobody is able to step.
pub fn all_is_complete()
    ensures { IsComplete }
{}

/// With one worker that is so of each of its steps.
pub fn one_is_lowest()
    ensures { OneIsLowest }
{}

/// A finished history goes on to where nobody is able to step: the first worker still finds nothing to receive, as many times as
/// there were more notified calls than receives, and nothing else happens.
pub fn finished_goes_over()
    ensures { GoesOver }
{}

/// Without a bound, each finished one of these histories is explored, with these receives behind it.
pub fn all_finished_is_complete()
    ensures { IsCompleteOfFinished }
{}

/// Each task that a legal history of a script makes has a name of the form.
pub fn names_have_form()
    ensures { NamesHaveForm }
{}

/// Where nobody is able to step after a legal history of a script without a `Skip`, every task has ended, no call is listed, and no
/// worker has a notification in hand: nobody can be stuck.
pub fn ends_finished()
    ensures { EndsFinished }
{}

/// So each explored history of a script that can be counted was finished when the listener was closed at its end.
pub fn explored_are_finished()
    ensures { AreFinished }
{}

/// The explored histories of two tasks with one call each and one worker, without delays and with one at most.
pub fn small_lists()
    ensures without_delays { WithoutDelays }
    ensures with_one_delay { WithOneDelay }
{}
