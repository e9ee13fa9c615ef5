//! The forms of a line: a keyword and the words behind it.
ghost use Rattle.std.specs.Prelude.{◌≡◌, ◌≢◌, MatchOption};
ghost use Rattle.io_script.specs.IoForms.{io_keyword_of};
ghost use Rattle.io_script.specs.declared.forms.IoForm.{IoForm as AForm};

/// What a line is about, apart from its words.
#[derive(Clone, Copy, Debug, PartialEq, Eq)]
pub(crate) enum IoForm {
    Memory,
    NRead,
    NWrite,
    NWriteR,
    SWrite,
    Round,
}

/// The form with this keyword.
pub(crate) fn form_named(word: &[u8]) -> Option<IoForm>
    ensures { MatchOption result
        ((form : AForm) → io_keyword_of form ≢ word.now)
        (λ form. io_keyword_of form ≡ word.now) }
{
    match word {
        b"memory" => Some(IoForm::Memory),
        b"nread" => Some(IoForm::NRead),
        b"nwrite" => Some(IoForm::NWrite),
        b"nwriter" => Some(IoForm::NWriteR),
        b"swrite" => Some(IoForm::SWrite),
        b"round" => Some(IoForm::Round),
        _ => None,
    }
}

impl IoForm {
    /// The keyword of the form.
    pub(crate) fn keyword(self) -> &'static [u8]
        ensures { result.now ≡ io_keyword_of self }
    {
        match self {
            IoForm::Memory => b"memory",
            IoForm::NRead => b"nread",
            IoForm::NWrite => b"nwrite",
            IoForm::NWriteR => b"nwriter",
            IoForm::SWrite => b"swrite",
            IoForm::Round => b"round",
        }
    }
}
