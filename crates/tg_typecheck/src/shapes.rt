ghost use Rattle.std.specs.Prelude.{◌≡◌};
ghost use Rattle.std.specs.Option.{option_map};
ghost use Rattle.tg_typecheck.specs.Types as types;
ghost use Rattle.tg_typecheck.specs.glue.Shapes.{fields_in_shape, element_in_shape};

use crate::kinds::Ty;
use std::marker::Model;
use tg_symbols::Table;

/// What a record or array type is made of.
#[derive(Drop)]
pub(crate) enum Form {
    Fields(Table<Ty>),
    Elements(Ty),
}

/// A record or array type, which contracts see as the definition's shape.
#[derive(Drop)]
pub(crate) struct Shape {
    form: Form,
}

impl Model for Shape {
    ghost use Rattle.tg_typecheck.specs.Types.{Shape as PlainShape};

    ghost Value = { PlainShape };

    ghost use Rattle.tg_typecheck.specs.glue.Shapes.{shape_of};

    ghost view = { λ s. shape_of s.form };
}

impl Shape {
    pub(crate) fn record_of(fields: Table<Ty>) -> Shape
        ensures { result ≡ types.record_shape fields }
    {
        Shape {
            form: Form::Fields(fields),
        }
    }

    pub(crate) fn array_of(element: Ty) -> Shape
        ensures { result ≡ types.array_shape element }
    {
        Shape {
            form: Form::Elements(element),
        }
    }

    pub(crate) fn fields(&self) -> Option<&Table<Ty>>
        ensures { option_map (λ t. t.now) result ≡ fields_in_shape self.now }
    {
        match &self.form {
            Form::Fields(fields) => Some(fields),
            Form::Elements(_) => None,
        }
    }

    pub(crate) fn element(&self) -> Option<Ty>
        ensures { result ≡ element_in_shape self.now }
    {
        match &self.form {
            Form::Fields(_) => None,
            Form::Elements(element) => Some(*element),
        }
    }
}
