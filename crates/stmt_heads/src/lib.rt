// The head of a class: what a method is by its name, and the class that the methods are in.
#![tactic(auto)]

ghost use Rattle.std.specs.Prelude.{◌≡◌, ◌<◌};
ghost use Rattle.rules.specs.Compiler.{method_type};
ghost use Rattle.state.specs.Kinds.{number_of};
ghost use Rattle.state.specs.Layout.{type_of};
ghost use Rattle.stmt_heads.specs.Classes.{ClassHead, InnerClass};

use fields::u8_at;
use rules::Name;
use state::Kind;
use steps::Class;

// What a method of this name is: `init` is an initializer.
pub fn method_kind(name: u16) -> Kind
    ensures { (type_of (number_of result) ≡ method_type name) × (0 < number_of result) }
{
    if name == Name::INIT {
        return Kind::Initializer;
    }
    Kind::Method
}

// The class that the methods are in.
pub fn inner_class(tree: &[u8], at: usize) -> u8
    requires { ClassHead tree.now at }
    ensures { InnerClass tree.now at result }
{
    if u8_at(tree, at + 12) == 1 {
        return Class::WITH_SUPER;
    }
    Class::ALONE
}
