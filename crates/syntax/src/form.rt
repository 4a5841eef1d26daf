// The forms of parse errors, by the place in parser.rs that reports them. In an error row a form stands as its number.
ghost use Rattle.std.specs.Prelude.{◌≡◌};
ghost use Rattle.syntax.specs.Forms.{number, Names};

// A form, with its number.
#[derive(Clone, Copy, PartialEq, Eq, Debug)]
pub enum Form {
    // `expect`: a token of another kind.
    Expect = 1,
    // `expect_ident`: another word.
    ExpectIdent = 2,
    // `parse_root`: tokens left over.
    LeftOver = 3,
    // `parse_pipeline`: no source.
    Source = 4,
    // `parse_dot_call`: no method.
    Method = 5,
    // `parse_atom`: no atom.
    Atom = 6,
}

// A number that is no form's.
#[derive(Clone, Copy, PartialEq, Eq, Debug)]
pub struct UnknownForm(pub u32);

impl From<Form> for u32 {
    ghost from_gives = { λ form n. n ≡ number form };

    fn from(form: Form) -> u32 {
        form as u32
    }
}

impl TryFrom<u32> for Form {
    type Error = UnknownForm;

    ghost try_from_gives = { Names };

    fn try_from(n: u32) -> Result<Form, UnknownForm> {
        match n {
            1 => Ok(Form::Expect),
            2 => Ok(Form::ExpectIdent),
            3 => Ok(Form::LeftOver),
            4 => Ok(Form::Source),
            5 => Ok(Form::Method),
            6 => Ok(Form::Atom),
            _ => Err(UnknownForm(n)),
        }
    }
}
