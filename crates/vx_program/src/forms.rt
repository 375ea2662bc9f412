//! The supported command lines.

ghost use Rattle.std.specs.Prelude.{◌≡◌};
ghost use Rattle.vx_program.specs.Answer.{texts_of};
ghost use Rattle.vx_program.specs.Forms.{form_named, form_of};

/// A supported command line: the one argument that it consists of.
#[derive(Clone, Copy, Debug, PartialEq, Eq)]
pub enum Form {
    /// `compress`: lists the compressed tree of a document's column.
    Compress,
    /// `store`: writes the file of that tree.
    Store,
    /// `show`: lists the trees of a file.
    Show,
    /// `rows`: writes the columns of a file's trees as documents.
    Rows,
    /// `query`: runs a document's commands on its compressed tree.
    Query,
}

// The form with this word.
#[tactic(auto, unfolding(crate::specs::Forms::form_named))]
fn form_named(word: &str) -> Option<Form>
    ensures { result ≡ form_named word.now }
{
    match word {
        "compress" => Some(Form::Compress),
        "store" => Some(Form::Store),
        "show" => Some(Form::Show),
        "rows" => Some(Form::Rows),
        "query" => Some(Form::Query),
        _ => None,
    }
}

/// The form of the arguments, None where they are no supported command line.
pub(crate) fn form_of(args: &[String]) -> Option<Form>
    ensures { result ≡ form_of (texts_of args.now) }
{
    match args {
        [arg] => form_named(arg.as_str()),
        _ => None,
    }
}
