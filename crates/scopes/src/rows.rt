ghost use Rattle.std.specs.Prelude.{◌≡◌};
ghost use Rattle.scopes.specs.Environments.{environment_of};
ghost use Rattle.scopes.specs.Rows.{overloads, of_overloads, overriding, of_overriding, two_promises, of_two_promises, readers, of_readers, hidden_field, of_hidden_field, no_result, of_no_result};

/// The environments of holes in small texts, worked out by hand from the rules.
pub fn worked()
    ensures overloads { environment_of overloads 45 1 ≡ of_overloads }
    ensures overriding { environment_of overriding 45 1 ≡ of_overriding }
    ensures two_promises { environment_of two_promises 45 1 ≡ of_two_promises }
    ensures readers { environment_of readers 4000 1 ≡ of_readers }
    ensures hidden_field { environment_of hidden_field 30 1 ≡ of_hidden_field }
    ensures no_result { environment_of no_result 50 1 ≡ of_no_result }
{}
