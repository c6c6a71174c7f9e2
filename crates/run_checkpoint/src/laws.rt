//! Laws of the lines of a state: calls without a body, whose contracts are the laws.
ghost use Rattle.run_checkpoint.specs.LineLaws.{GuardsAreReadBack, GuardsHaveOneLine, OctetsAreReadBack, OctetsHaveOneLine, SendersAreReadBack, SendersHaveOneLine, TimesAreReadBack, TimesHaveOneLine};
ghost use Rattle.run_checkpoint.specs.StateLaws.{QuietStatesAreOfPlans, StatesOfPlansAreResumable};

/// What is written of a state's half bit, of senders, of ports and of octets is read back, with values that keep the
/// rules.
pub fn lines_are_read_back()
    ensures times { TimesAreReadBack }
    ensures senders { SendersAreReadBack }
    ensures guards { GuardsAreReadBack }
    ensures octets { OctetsAreReadBack }
{}

/// A line whose values keep the rules is the one line of the half bit, the sender, the port or the octets that it says.
pub fn one_line_each()
    ensures times { TimesHaveOneLine }
    ensures senders { SendersHaveOneLine }
    ensures guards { GuardsHaveOneLine }
    ensures octets { OctetsHaveOneLine }
{}

/// The network of a plan can go on from each state of it, and those of its quiet half bits are among them.
pub fn states_of_plans()
    ensures quiet { QuietStatesAreOfPlans }
    ensures resumable { StatesOfPlansAreResumable }
{}
