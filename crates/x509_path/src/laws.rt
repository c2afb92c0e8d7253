//! Laws of the definitions: functions that do nothing, whose contracts are proved.
ghost use Rattle.std.specs.Prelude.{◌≢◌, ◌↔◌, ℕ, List, Option};
ghost use Rattle.path_rules.specs.Path.{HasRoom};
ghost use Rattle.path_rules.specs.declared.answer.Answer.{Answer as AnAnswer};
ghost use Rattle.path_rules.specs.declared.answer.Answer.TheVariants.{Valid as IsValid};
ghost use Rattle.x509_path.specs.Judgements.{IsRefused};
ghost use Rattle.x509_path.specs.Names.{HaveOneVerdict};
ghost use Rattle.x509_path.specs.PathLimits.{lesser};
ghost use Rattle.x509_path.specs.Paths.{IsAnswered, IsValidPath, Verify};
ghost use Rattle.x509_path.specs.declared.certificate.PathCertificate.{PathCertificate as ACertificate};
ghost use Rattle.x509_path.specs.declared.inputs.Inputs.{Inputs as AnInputs};
ghost use Rattle.x509_path.specs.declared.refusal.Refusal.{Refusal as ARefusal};

// Two limits together allow what the lesser allows.
#[allow(dead_code)]
fn lesser_limits()
    ensures { (p q : Option ℕ) (n : ℕ)
        → HasRoom (lesser p q) n ↔ (HasRoom p n × HasRoom q n) }
{}

// If the names of a certificate have one verdict, each answer but `Valid`, and each refusal, says that
// the path is not valid, whatever it means that a signature verifies.
#[allow(dead_code)]
fn refuses_rightly()
    ensures answer { HaveOneVerdict
        → (verify : Verify) (a : AnAnswer) (i : AnInputs) (path : List ACertificate)
        → IsAnswered a i path → a ≢ IsValid → IsValidPath verify i path → ⊥ }
    ensures refusal { HaveOneVerdict
        → (verify : Verify) (why : ARefusal) (i : AnInputs) (path : List ACertificate)
        → IsRefused why i path → IsValidPath verify i path → ⊥ }
{}
