//! The law of downloads, over definitions alone.
ghost use Rattle.acng_fetch.specs.Law.{DownloadsAllowed, DownloadsKeep};

use acng_site::Site;

/// On an honest site each effect of a download is allowed where it comes.
pub fn downloads_allowed<S: Site>()
    ensures { DownloadsAllowed S.Site }
{}

/// So the body of a download keeps, after each front of its effects, all that a body keeps.
pub fn downloads_keep<S: Site>()
    ensures { DownloadsKeep S.Site }
{}
