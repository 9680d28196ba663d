//! The commands that are read, and their options (SDC 2.1, the table of commands).

ghost use Rattle.std.specs.Prelude.{◌≡◌, ◌≤ℤ◌, pos, IfSome};
ghost use Rattle.sdc_reader.specs.Commands.{port_command, command_of, is_passed_over_limit, is_passed_over, is_left_out_limit, getter_of, is_left_out_getter, is_left_out, is_left_out_option, is_inter_clock, other_choice, clock_choice, bound_choice, delay_choice, load_choice, kind_choice, uncertainty_choice, path_choice, false_path_choice, cycle_choice, multicycle_choice, unit_choice, derate_choice, choice_of, quantity_of, role_of, is_derate, is_multicycle, blank, asked_objects, asked, clash_of, clash, first_start, with_flag, with_number, with_objects, unpaired, is_asked, is_single, is_pins, time_unit, capacitance_unit};
ghost use Rattle.sdc_reader.specs.declared.commands.Flag.TheVariants as flags;

use crate::words::{gets_objects, is};
use timing_defs::Code;

/// A command that is read.
#[derive(Clone, Copy, Drop)]
pub(crate) enum Command {
    CreateClock,
    InputDelay,
    OutputDelay,
    InputTransition,
    Load,
    Uncertainty,
    FalsePath,
    Multicycle,
    Units,
    Derate,
}

/// An option without a value that has an effect.
#[derive(Clone, Copy, Drop)]
pub(crate) enum Flag {
    Min,
    Max,
    Rise,
    Fall,
    Setup,
    Hold,
    Start,
    End,
    Early,
    Late,
    Cells,
    Nets,
}

/// What a written number is. Times are in the unit of time and loads in that of capacitance; cycles
/// and the factors of derates have no unit.
#[derive(Clone, Copy, Drop)]
pub(crate) enum Quantity {
    Period,
    WaveRise,
    WaveFall,
    Time,
    Slew,
    Load,
    Cycles,
    Factor,
}

/// What objects are named for: the ports or the clocks that a command sets, the one clock of a
/// delay, or the begin or the end of paths.
#[derive(Clone, Copy, Drop)]
pub(crate) enum Role {
    Ports,
    Clocks,
    Clock,
    From,
    To,
}

/// How objects are written: by name alone, or in brackets behind a command that gets them.
#[derive(Clone, Copy, Drop)]
pub(crate) enum Getter {
    Plain,
    Ports,
    Clocks,
    Pins,
    Cells,
}

/// What an option of a command means.
#[derive(Clone, Copy, Drop)]
pub(crate) enum Choice {
    /// It has no value.
    Flag(Flag),
    /// It has no value and no effect.
    NoEffect,
    /// A name follows.
    Name,
    /// A period follows.
    Period,
    /// A rise and a fall follow, in a list.
    Waveform,
    /// Objects follow.
    Objects(Role),
    /// A unit of time follows.
    TimeUnit,
    /// A unit of capacitance follows.
    CapacitanceUnit,
    /// It is passed over, with a word that may follow.
    PassedOver,
    /// It is an option of SDC that is left out.
    LeftOut,
    /// The command has no such option.
    Unknown,
}

/// What the next plain word of a command stands for.
#[derive(Clone, Copy, Drop)]
pub(crate) enum Asked {
    Number(Quantity),
    Objects(Role),
    Nothing,
}

/// What was read of a command: whether its number and its objects were written, which of the options
/// that exclude each other, and where `-start` stands first.
#[derive(Clone, Copy, Drop)]
pub(crate) struct Line {
    pub command: Command,
    pub number: bool,
    pub objects: bool,
    pub setup: bool,
    pub hold: bool,
    pub end: bool,
    pub start: Option<usize>,
}

/// A list of objects of a command: what they are named for, how they are written, and whether the
/// list stands in brackets.
#[derive(Clone, Copy, Drop)]
pub(crate) struct Listing {
    pub line: Line,
    pub role: Role,
    pub getter: Getter,
    pub bracketed: bool,
}

/// More of a command: what was read of it, and whether a word that is passed over may stand next.
#[derive(Clone, Copy, Drop)]
pub(crate) struct More {
    pub line: Line,
    pub passes_word: bool,
}

fn port_command(word: &[u8]) -> Option<Command>
    ensures { result ≡ port_command word.now }
{
    if is(word, b"set_input_delay") {
        Some(Command::InputDelay)
    } else if is(word, b"set_output_delay") {
        Some(Command::OutputDelay)
    } else if is(word, b"set_input_transition") {
        Some(Command::InputTransition)
    } else if is(word, b"set_load") {
        Some(Command::Load)
    } else {
        None
    }
}

/// The command that a word names.
#[tactic(auto, unfolding(crate::specs::Commands::command_of))]
pub(crate) fn command_of(word: &[u8]) -> Option<Command>
    ensures { result ≡ command_of word.now }
{
    if is(word, b"create_clock") {
        Some(Command::CreateClock)
    } else if is(word, b"set_clock_uncertainty") {
        Some(Command::Uncertainty)
    } else if is(word, b"set_false_path") {
        Some(Command::FalsePath)
    } else if is(word, b"set_multicycle_path") {
        Some(Command::Multicycle)
    } else if is(word, b"set_units") {
        Some(Command::Units)
    } else if is(word, b"set_timing_derate") {
        Some(Command::Derate)
    } else {
        port_command(word)
    }
}

fn is_passed_over_limit(word: &[u8]) -> bool
    ensures { result ≡ is_passed_over_limit word.now }
{
    is(word, b"set_max_area")
        || is(word, b"set_max_fanout")
        || is(word, b"set_max_transition")
        || is(word, b"set_max_capacitance")
}

/// Whether the word is a command that is passed over.
#[tactic(auto, unfolding(crate::specs::Commands::is_passed_over))]
pub(crate) fn is_passed_over(word: &[u8]) -> bool
    ensures { result ≡ is_passed_over word.now }
{
    is_passed_over_limit(word)
        || is(word, b"current_design")
        || is(word, b"set_propagated_clock")
        || is(word, b"set_operating_conditions")
        || is(word, b"set_wire_load_mode")
        || is(word, b"set_wire_load_model")
        || is(word, b"group_path")
}

fn is_left_out_limit(word: &[u8]) -> bool
    ensures { result ≡ is_left_out_limit word.now }
{
    is(word, b"set_max_delay")
        || is(word, b"set_min_delay")
        || is(word, b"set_driving_cell")
        || is(word, b"set_disable_timing")
}

/// How the objects behind a word in brackets are got.
#[tactic(auto, unfolding(crate::specs::Commands::getter_of))]
pub(crate) fn getter_of(word: &[u8]) -> Option<Getter>
    ensures { result ≡ getter_of word.now }
{
    if is(word, b"get_ports") {
        Some(Getter::Ports)
    } else if is(word, b"get_clocks") {
        Some(Getter::Clocks)
    } else if is(word, b"get_pins") {
        Some(Getter::Pins)
    } else if is(word, b"get_cells") {
        Some(Getter::Cells)
    } else {
        None
    }
}

/// Whether the word gets objects in a way that is left out.
pub(crate) fn is_left_out_getter(word: &[u8]) -> bool
    ensures { result ≡ is_left_out_getter word.now }
{
    gets_objects(word) && getter_of(word).is_none()
}

/// Whether the word is a command of SDC that is left out.
#[tactic(auto, unfolding(crate::specs::Commands::is_left_out))]
pub(crate) fn is_left_out(word: &[u8]) -> bool
    ensures { result ≡ is_left_out word.now }
{
    is_left_out_limit(word)
        || is(word, b"create_generated_clock")
        || is(word, b"set_clock_latency")
        || is(word, b"set_case_analysis")
        || is(word, b"set_clock_transition")
        || is_left_out_getter(word)
}

fn is_left_out_option(word: &[u8]) -> bool
    ensures { result ≡ is_left_out_option word.now }
{
    is(word, b"-through") || is(word, b"-clock_fall") || is(word, b"-add_delay")
}

fn is_inter_clock(word: &[u8]) -> bool
    ensures { result ≡ is_inter_clock word.now }
{
    is(word, b"-from")
        || is(word, b"-to")
        || is(word, b"-rise_from")
        || is(word, b"-fall_from")
        || is(word, b"-rise_to")
        || is(word, b"-fall_to")
}

fn other_choice(word: &[u8]) -> Choice
    ensures { result ≡ other_choice word.now }
{
    if is_left_out_option(word) {
        Choice::LeftOut
    } else {
        Choice::Unknown
    }
}

fn clock_choice(word: &[u8]) -> Choice
    ensures { result ≡ clock_choice word.now }
{
    if is(word, b"-period") {
        Choice::Period
    } else if is(word, b"-name") {
        Choice::Name
    } else if is(word, b"-waveform") {
        Choice::Waveform
    } else {
        other_choice(word)
    }
}

fn bound_choice(word: &[u8], others: Choice) -> Choice
    ensures { result ≡ bound_choice word.now others }
{
    if is(word, b"-min") {
        Choice::Flag(Flag::Min)
    } else if is(word, b"-max") {
        Choice::Flag(Flag::Max)
    } else {
        others
    }
}

fn delay_choice(word: &[u8]) -> Choice
    ensures { result ≡ delay_choice word.now }
{
    if is(word, b"-clock") {
        Choice::Objects(Role::Clock)
    } else if is(word, b"-rise") {
        Choice::Flag(Flag::Rise)
    } else if is(word, b"-fall") {
        Choice::Flag(Flag::Fall)
    } else {
        bound_choice(word, other_choice(word))
    }
}

fn load_choice(word: &[u8]) -> Choice
    ensures { result ≡ load_choice word.now }
{
    if is(word, b"-pin_load") {
        Choice::NoEffect
    } else if is(word, b"-rise") {
        Choice::NoEffect
    } else if is(word, b"-fall") {
        Choice::NoEffect
    } else {
        bound_choice(word, other_choice(word))
    }
}

fn kind_choice(word: &[u8], others: Choice) -> Choice
    ensures { result ≡ kind_choice word.now others }
{
    if is(word, b"-setup") {
        Choice::Flag(Flag::Setup)
    } else if is(word, b"-hold") {
        Choice::Flag(Flag::Hold)
    } else {
        others
    }
}

fn uncertainty_choice(word: &[u8]) -> Choice
    ensures { result ≡ uncertainty_choice word.now }
{
    if is_inter_clock(word) {
        return kind_choice(word, Choice::LeftOut);
    }
    kind_choice(word, other_choice(word))
}

fn path_choice(word: &[u8], others: Choice) -> Choice
    ensures { result ≡ path_choice word.now others }
{
    if is(word, b"-from") {
        Choice::Objects(Role::From)
    } else if is(word, b"-to") {
        Choice::Objects(Role::To)
    } else {
        others
    }
}

fn false_path_choice(word: &[u8]) -> Choice
    ensures { result ≡ false_path_choice word.now }
{
    kind_choice(word, path_choice(word, other_choice(word)))
}

fn cycle_choice(word: &[u8]) -> Choice
    ensures { result ≡ cycle_choice word.now }
{
    if is(word, b"-start") {
        Choice::Flag(Flag::Start)
    } else if is(word, b"-end") {
        Choice::Flag(Flag::End)
    } else {
        other_choice(word)
    }
}

fn multicycle_choice(word: &[u8]) -> Choice
    ensures { result ≡ multicycle_choice word.now }
{
    kind_choice(word, path_choice(word, cycle_choice(word)))
}

fn unit_choice(word: &[u8]) -> Choice
    ensures { result ≡ unit_choice word.now }
{
    if is(word, b"-time") {
        Choice::TimeUnit
    } else if is(word, b"-capacitance") {
        Choice::CapacitanceUnit
    } else if is_left_out_option(word) {
        Choice::LeftOut
    } else {
        Choice::PassedOver
    }
}

fn derate_choice(word: &[u8]) -> Choice
    ensures { result ≡ derate_choice word.now }
{
    if is(word, b"-early") {
        Choice::Flag(Flag::Early)
    } else if is(word, b"-late") {
        Choice::Flag(Flag::Late)
    } else if is(word, b"-cell_delay") {
        Choice::Flag(Flag::Cells)
    } else if is(word, b"-net_delay") {
        Choice::Flag(Flag::Nets)
    } else {
        Choice::LeftOut
    }
}

impl Command {
    /// What an option of the command means.
    pub(crate) fn choice_of(self, word: &[u8]) -> Choice
        ensures { result ≡ choice_of self word.now }
    {
        match self {
            Command::CreateClock => clock_choice(word),
            Command::InputDelay | Command::OutputDelay | Command::InputTransition => {
                delay_choice(word)
            }
            Command::Load => load_choice(word),
            Command::Uncertainty => uncertainty_choice(word),
            Command::FalsePath => false_path_choice(word),
            Command::Multicycle => multicycle_choice(word),
            Command::Units => unit_choice(word),
            Command::Derate => derate_choice(word),
        }
    }

    /// The number that the command has.
    fn quantity(self) -> Option<Quantity>
        ensures { result ≡ quantity_of self }
    {
        match self {
            Command::InputDelay | Command::OutputDelay | Command::Uncertainty => {
                Some(Quantity::Time)
            }
            Command::InputTransition => Some(Quantity::Slew),
            Command::Load => Some(Quantity::Load),
            Command::Multicycle => Some(Quantity::Cycles),
            Command::Derate => Some(Quantity::Factor),
            Command::CreateClock | Command::FalsePath | Command::Units => None,
        }
    }

    /// The objects that the command has beside those of its options.
    fn role(self) -> Option<Role>
        ensures { result ≡ role_of self }
    {
        match self {
            Command::CreateClock
            | Command::InputDelay
            | Command::OutputDelay
            | Command::InputTransition
            | Command::Load => Some(Role::Ports),
            Command::Uncertainty => Some(Role::Clocks),
            Command::FalsePath | Command::Multicycle | Command::Units | Command::Derate => None,
        }
    }

    /// Whether it scales delays.
    pub(crate) fn is_derate(self) -> bool
        ensures { result ≡ is_derate self }
    {
        match self {
            Command::Derate => true,
            _ => false,
        }
    }

    fn is_multicycle(self) -> bool
        ensures { result ≡ is_multicycle self }
    {
        match self {
            Command::Multicycle => true,
            _ => false,
        }
    }
}

fn first_start(before: Option<usize>, at: usize) -> Option<usize>
    ensures { result ≡ first_start before at }
{
    match before {
        None => Some(at),
        Some(place) => Some(place),
    }
}

impl Line {
    /// A command of which nothing is read yet.
    pub(crate) fn new(command: Command) -> Line
        ensures { result ≡ blank command }
    {
        Line {
            command,
            number: false,
            objects: false,
            setup: false,
            hold: false,
            end: false,
            start: None,
        }
    }

    fn asked_objects(self) -> Asked
        ensures { result ≡ asked_objects self (role_of self.command) }
    {
        match self.command.role() {
            None => Asked::Nothing,
            Some(role) => {
                if self.objects {
                    Asked::Nothing
                } else {
                    Asked::Objects(role)
                }
            }
        }
    }

    /// What the next plain word stands for.
    pub(crate) fn asked(self) -> Asked
        ensures { result ≡ asked self }
    {
        match self.command.quantity() {
            None => self.asked_objects(),
            Some(quantity) => {
                if self.number {
                    self.asked_objects()
                } else {
                    Asked::Number(quantity)
                }
            }
        }
    }

    fn setup_clash(self) -> Option<Code>
        ensures { result ≡ clash_of self flags.Setup }
    {
        if self.hold {
            Some(Code::SdcLeftOut)
        } else if self.start.is_some() {
            Some(Code::SdcBadWord)
        } else {
            None
        }
    }

    fn hold_clash(self) -> Option<Code>
        ensures { result ≡ clash_of self flags.Hold }
    {
        if self.setup {
            Some(Code::SdcLeftOut)
        } else if self.end {
            Some(Code::SdcBadWord)
        } else {
            None
        }
    }

    fn clash_of(self, flag: Flag) -> Option<Code>
        ensures { result ≡ clash_of self flag }
    {
        match flag {
            Flag::Setup => self.setup_clash(),
            Flag::Hold => self.hold_clash(),
            Flag::Start => {
                if self.setup {
                    Some(Code::SdcBadWord)
                } else {
                    None
                }
            }
            Flag::End => {
                if self.hold {
                    Some(Code::SdcBadWord)
                } else {
                    None
                }
            }
            _ => None,
        }
    }

    /// What is wrong with an option beside those that were read.
    pub(crate) fn clash(self, flag: Flag) -> Option<Code>
        ensures { result ≡ clash self flag }
    {
        if self.command.is_multicycle() {
            self.clash_of(flag)
        } else {
            None
        }
    }

    /// The command with an option at this place.
    pub(crate) fn with_flag(self, flag: Flag, at: usize) -> Line
        ensures { result ≡ with_flag self flag at }
    {
        match flag {
            Flag::Setup => Line {
                setup: true,
                ..self
            },
            Flag::Hold => Line { hold: true, ..self },
            Flag::Start => Line {
                start: first_start(self.start, at),
                ..self
            },
            Flag::End => Line { end: true, ..self },
            _ => self,
        }
    }

    /// The command with its number.
    pub(crate) fn with_number(self) -> Line
        ensures { result ≡ with_number self }
    {
        Line {
            number: true,
            ..self
        }
    }

    /// The command with its objects.
    pub(crate) fn with_objects(self) -> Line
        ensures { result ≡ with_objects self }
    {
        Line {
            objects: true,
            ..self
        }
    }

    /// Where `-start` stands without `-hold`.
    pub(crate) fn unpaired(self) -> Option<usize>
        ensures { result ≡ unpaired self }
    {
        if self.hold { None } else { self.start }
    }
}

impl Role {
    /// Whether objects that are got so may stand in this role.
    pub(crate) fn is_asked(self, getter: Getter) -> bool
        ensures { result ≡ is_asked self getter }
    {
        match (self, getter) {
            (Role::Ports, Getter::Ports) => true,
            (Role::Clocks | Role::Clock, Getter::Clocks) => true,
            (Role::From | Role::To, _) => true,
            _ => false,
        }
    }

    /// Whether exactly one object is asked.
    pub(crate) fn is_single(self) -> bool
        ensures { result ≡ is_single self }
    {
        match self {
            Role::Clock => true,
            _ => false,
        }
    }
}

impl Getter {
    /// Whether the objects are pins.
    pub(crate) fn is_pins(self) -> bool
        ensures { result ≡ is_pins self }
    {
        match self {
            Getter::Pins => true,
            _ => false,
        }
    }
}

/// The power of ten of a unit of time, in fs.
#[tactic(auto, unfolding(crate::specs::Commands::time_unit))]
pub(crate) fn time_unit(word: &[u8]) -> Option<i32>
    ensures { result ≡ time_unit word.now }
{
    if is(word, b"ps") || is(word, b"1ps") || is(word, b"1.0ps") {
        Some(3)
    } else if is(word, b"10ps") {
        Some(4)
    } else if is(word, b"100ps") {
        Some(5)
    } else if is(word, b"ns") || is(word, b"1ns") || is(word, b"1.0ns") {
        Some(6)
    } else {
        None
    }
}

/// The power of ten of a unit of capacitance, in aF.
#[tactic(auto, unfolding(crate::specs::Commands::capacitance_unit))]
pub(crate) fn capacitance_unit(word: &[u8]) -> Option<i32>
    ensures { result ≡ capacitance_unit word.now }
{
    if is(word, b"fF") || is(word, b"1fF") || is(word, b"1.0fF") {
        Some(3)
    } else if is(word, b"pF") || is(word, b"1pF") || is(word, b"1.0pF") {
        Some(6)
    } else {
        None
    }
}
