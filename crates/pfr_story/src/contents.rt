// What changes the contents, by whole images.
ghost use Rattle.pfr_story.specs.Contents.{MigratesWhole, ProvisionsWhole};
ghost use Rattle.pfr_story.specs.JobContents.{CopiesWhole, RebuildsWhole, ResumesWhole};

/// What a job that is resumed, a restore, an update, a migration and a provision leave, by whole images. This does nothing.
pub fn whole_images()
    ensures resumes { ResumesWhole }
    ensures rebuilds { RebuildsWhole }
    ensures copies { CopiesWhole }
    ensures migrates { MigratesWhole }
    ensures provisions { ProvisionsWhole }
{}
