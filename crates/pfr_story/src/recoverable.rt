// What leaves banks so that they can be recovered.
ghost use Rattle.pfr_story.specs.SafePlans.{CancelsSafely, CopiesSafely, MigratesSafely, ProvisionsSafely, RebuildsSafely, ResumesSafely};

/// What is done to a bank by jobs, certificates, migrations and provisions leaves each bank that could be recovered
/// so, wherever it is cut. This does nothing.
pub fn safe_plans()
    ensures resumes { ResumesSafely }
    ensures rebuilds { RebuildsSafely }
    ensures copies { CopiesSafely }
    ensures cancels { CancelsSafely }
    ensures migrates { MigratesSafely }
    ensures provisions { ProvisionsSafely }
{}
