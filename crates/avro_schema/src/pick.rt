ghost use Rattle.std.specs.Prelude.{◌≡◌, true};
ghost use Rattle.avro_schema.specs.Forms.{is_plain};
ghost use Rattle.avro_names.specs.NameList.{place_of};
ghost use Rattle.avro_schema.specs.Picks.{kind_in, branches_in, names_in, symbols_in, fields_in, name_in};

use crate::parts::{Field, Form};
use crate::schema::Kind;
use gate_io::Text;

/// The kind of a form that is no reference.
pub(crate) fn kind_in(form: &Form) -> Kind
    requires { is_plain form.now ≡ true }
    ensures { result ≡ kind_in form.now }
{
    match form {
        Form::Null => Kind::Null,
        Form::Boolean => Kind::Boolean,
        Form::Int => Kind::Int,
        Form::Long => Kind::Long,
        Form::Bytes => Kind::Bytes,
        Form::Text => Kind::Text,
        Form::Array(items) => Kind::Array(*items),
        Form::Map(values) => Kind::Map(*values),
        Form::Union(_, _) => Kind::Union,
        Form::Fixed(_, size) => Kind::Fixed(*size),
        Form::Enum(_, _) => Kind::Enum,
        Form::Record(_, _) => Kind::Record,
        Form::Named(_, _) => unreachable!(),
    }
}

/// The nodes of a union's branches. None at another form.
pub(crate) fn branches_in(form: &Form) -> &[u32]
    ensures { result.now ≡ branches_in form.now }
{
    match form {
        Form::Union(branches, _) => branches.as_slice(),
        _ => &[],
    }
}

/// The first place of a name among those of a union's branches.
pub(crate) fn branch_in(form: &Form, name: &str) -> Option<usize>
    ensures { result ≡ place_of name.now (names_in form.now) }
{
    match form {
        Form::Union(_, names) => names.find(name),
        _ => None,
    }
}

/// The symbols of an enum. None at another form.
pub(crate) fn symbols_in(form: &Form) -> &[Text]
    ensures { result.now ≡ symbols_in form.now }
{
    match form {
        Form::Enum(_, symbols) => symbols.as_slice(),
        _ => &[],
    }
}

/// The first place of a name among the symbols of an enum.
pub(crate) fn symbol_in(form: &Form, name: &str) -> Option<usize>
    ensures { result ≡ place_of name.now (symbols_in form.now) }
{
    match form {
        Form::Enum(_, symbols) => symbols.find(name),
        _ => None,
    }
}

/// The fields of a record. None at another form.
pub(crate) fn fields_in(form: &Form) -> &[Field]
    ensures { result.now ≡ fields_in form.now }
{
    match form {
        Form::Record(_, fields) => fields.as_slice(),
        _ => &[],
    }
}

/// The fullname, or the name of the kind.
pub(crate) fn name_in(form: &Form) -> &str
    ensures { result.now ≡ name_in form.now }
{
    match form {
        Form::Null => "null",
        Form::Boolean => "boolean",
        Form::Int => "int",
        Form::Long => "long",
        Form::Bytes => "bytes",
        Form::Text => "string",
        Form::Array(_) => "array",
        Form::Map(_) => "map",
        Form::Union(_, _) => "union",
        Form::Fixed(name, _) => name.as_str(),
        Form::Enum(name, _) => name.as_str(),
        Form::Record(name, _) => name.as_str(),
        Form::Named(name, _) => name.as_str(),
    }
}
