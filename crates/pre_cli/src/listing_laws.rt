ghost use Rattle.std.specs.Prelude.{◌≡◌, ◌⊎◌, ℕ, List, Option, Some};
ghost use Rattle.pre_base.specs.Shelves.{Told, IsMissing};
ghost use Rattle.pre_cli.specs.declared.statuses.Status.{Status};
ghost use Rattle.pre_cli.specs.declared.statuses.Status.TheVariants as status;
ghost use Rattle.pre_cli.specs.Answers.{Outside};
ghost use Rattle.pre_cli.specs.Due.{TellsFiles};
ghost use Rattle.pre_cli.specs.Listed.{ListingCause};
ghost use Rattle.pre_cli.specs.DueListings.{TellsPackets, IsListingDue};

/// The same where a file of mPackets is to be listed: a file that isn't there, its first fault, and a file without a
/// fault are answered as such, but where memory isn't found or the shelf or sink fails.
pub fn due_listings()
    ensures words { (name : List ℕ) (o : Outside) → ¬ ListingCause status.Words name o }
    ensures missing { (s : Status) (name : List ℕ) (o : Outside) (told : Told) → TellsFiles o told → IsMissing (Some told) name → ListingCause s name o → (s ≡ status.ReadFault) ⊎ (s ≡ status.Memory) }
    ensures packets { (s : Status) (name : List ℕ) (fault : Option (ℕ × ℕ)) (o : Outside) → TellsPackets o name fault → ListingCause s name o → IsListingDue o fault s }
{}
