//! What a request asks for.

ghost use Rattle.std.specs.Prelude.{◌≡◌};
ghost use Rattle.vcm_dap.specs.Asking.{motion_of, look_of, ask_of};

/// A motion that is asked for.
#[derive(Clone, Copy)]
pub enum Motion {
    /// The first one, behind the launch.
    Begin,
    Continue,
    Step,
    StepOut,
    StepBack,
    Reverse,
    Pause,
}

/// What is asked for that leaves the session as it is.
#[derive(Clone, Copy)]
pub enum Look {
    Initialize,
    Launch,
    Threads,
    ExceptionBreakpoints,
    DataBreakpointInfo,
    StackTrace,
    Scopes,
    Variables,
    Evaluate,
    ExceptionInfo,
    Disconnect,
    /// It isn't known.
    Unknown,
}

/// What a request asks for.
#[derive(Clone, Copy)]
pub enum Ask {
    Breakpoints,
    DataBreakpoints,
    Move(Motion),
    Show(Look),
}

// The motion of this name, if it is one.
fn motion_of(command: &str) -> Option<Motion>
    ensures { result ≡ motion_of command.now }
{
    match command {
        "configurationDone" => Some(Motion::Begin),
        "continue" => Some(Motion::Continue),
        "next" | "stepIn" => Some(Motion::Step),
        "stepOut" => Some(Motion::StepOut),
        "stepBack" => Some(Motion::StepBack),
        "reverseContinue" => Some(Motion::Reverse),
        "pause" => Some(Motion::Pause),
        _ => None,
    }
}

// What a name asks for that leaves the session as it is.
fn look_of(command: &str) -> Look
    ensures { result ≡ look_of command.now }
{
    match command {
        "initialize" => Look::Initialize,
        "launch" => Look::Launch,
        "threads" => Look::Threads,
        "setExceptionBreakpoints" => Look::ExceptionBreakpoints,
        "dataBreakpointInfo" => Look::DataBreakpointInfo,
        "stackTrace" => Look::StackTrace,
        "scopes" => Look::Scopes,
        "variables" => Look::Variables,
        "evaluate" => Look::Evaluate,
        "exceptionInfo" => Look::ExceptionInfo,
        "disconnect" => Look::Disconnect,
        _ => Look::Unknown,
    }
}

/// What the command of a request asks for.
pub fn ask_of(command: &str) -> Ask
    ensures { result ≡ ask_of command.now }
{
    match command {
        "setBreakpoints" => Ask::Breakpoints,
        "setDataBreakpoints" => Ask::DataBreakpoints,
        _ => match motion_of(command) {
            Some(motion) => Ask::Move(motion),
            None => Ask::Show(look_of(command)),
        },
    }
}
