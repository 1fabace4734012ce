//! What a condition asks of a host.
ghost use Rattle.std.specs.Prelude.{◌≡◌, option_map};
ghost use Rattle.group_tree.specs.Scalars.{lent_scalar};
ghost use Rattle.cond.specs.Meaning.{Environment};
ghost use Rattle.cond.specs.Trees.{had};

use group_tree::Scalar;
use text_syntax::Field;

/// What a name has: a registered result, as a whole, or a variable's scalar.
#[derive(Clone, Copy, Debug, PartialEq, Eq)]
pub enum Value<'e> {
    Registered,
    Plain(Scalar<'e>),
}

/// A name that has no value where a condition needs one: of `x.rc` the part before the dot.
#[derive(Clone, Copy, Debug, PartialEq, Eq)]
pub struct Undefined<'c> {
    pub name: &'c str,
}

/// A host, as conditions see it.
pub trait Env {
    ghost environment: { Self → Environment };

    /// What the name has: that a result is registered under it, or else its variable.
    fn value(&self, name: &str) -> Option<Value<'_>>
        ensures { option_map had result ≡ (environment self.now).value name.now };

    /// A field of the result that is registered under the name; `None` where none is, or where it has no return code.
    fn field(&self, name: &str, field: Field) -> Option<Scalar<'_>>
        ensures { option_map lent_scalar result ≡ (environment self.now).field name.now field };

    /// Whether the group of this name holds the host.
    fn in_group(&self, group: &str) -> bool
        ensures { result ≡ (environment self.now).in_group group.now };

    /// The host's own name.
    fn host(&self) -> &str
        ensures { result.now ≡ (environment self.now).host };
}
