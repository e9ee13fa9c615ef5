//! The forms of a line: a keyword and the words behind it.

ghost use Rattle.std.specs.Prelude.{◌≡◌, ◌≢◌, MatchOption};
ghost use Rattle.fabric_script.specs.Forms.{keyword_of};
ghost use Rattle.fabric_script.specs.declared.forms.Form.{Form as AForm};

/// What a line is about, apart from its words.
#[derive(Clone, Copy, Debug, PartialEq, Eq)]
pub enum Form {
    Endpoint,
    Switch,
    Link,
    Buffers,
    Route,
    Default,
    Lock,
    Large,
    Credits,
    Send,
    Read,
    Write,
    Send16,
    Read16,
    Write16,
    Pump,
    Deliver,
    Alter,
    Insert,
    Erase,
    Timeout,
    Settle,
    Move,
    Collect,
    Run,
}

/// The form with this keyword.
pub(crate) fn form_named(word: &[u8]) -> Option<Form>
    ensures { MatchOption result
        ((form : AForm) → keyword_of form ≢ word.now)
        (λ form. keyword_of form ≡ word.now) }
{
    match word {
        b"endpoint" => Some(Form::Endpoint),
        b"switch" => Some(Form::Switch),
        b"link" => Some(Form::Link),
        b"buffers" => Some(Form::Buffers),
        b"route" => Some(Form::Route),
        b"default" => Some(Form::Default),
        b"lock" => Some(Form::Lock),
        b"large" => Some(Form::Large),
        b"credits" => Some(Form::Credits),
        b"send" => Some(Form::Send),
        b"read" => Some(Form::Read),
        b"write" => Some(Form::Write),
        b"send16" => Some(Form::Send16),
        b"read16" => Some(Form::Read16),
        b"write16" => Some(Form::Write16),
        b"pump" => Some(Form::Pump),
        b"deliver" => Some(Form::Deliver),
        b"alter" => Some(Form::Alter),
        b"insert" => Some(Form::Insert),
        b"erase" => Some(Form::Erase),
        b"timeout" => Some(Form::Timeout),
        b"settle" => Some(Form::Settle),
        b"move" => Some(Form::Move),
        b"collect" => Some(Form::Collect),
        b"run" => Some(Form::Run),
        _ => None,
    }
}

impl Form {
    /// The keyword of the form.
    pub(crate) fn keyword(self) -> &'static [u8]
        ensures { result.now ≡ keyword_of self }
    {
        match self {
            Form::Endpoint => b"endpoint",
            Form::Switch => b"switch",
            Form::Link => b"link",
            Form::Buffers => b"buffers",
            Form::Route => b"route",
            Form::Default => b"default",
            Form::Lock => b"lock",
            Form::Large => b"large",
            Form::Credits => b"credits",
            Form::Send => b"send",
            Form::Read => b"read",
            Form::Write => b"write",
            Form::Send16 => b"send16",
            Form::Read16 => b"read16",
            Form::Write16 => b"write16",
            Form::Pump => b"pump",
            Form::Deliver => b"deliver",
            Form::Alter => b"alter",
            Form::Insert => b"insert",
            Form::Erase => b"erase",
            Form::Timeout => b"timeout",
            Form::Settle => b"settle",
            Form::Move => b"move",
            Form::Collect => b"collect",
            Form::Run => b"run",
        }
    }
}
