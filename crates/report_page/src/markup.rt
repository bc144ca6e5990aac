// The fixed parts of a page.
ghost use Rattle.std.specs.Prelude.{◌≡◌};
ghost use Rattle.report_page.specs.Markup.{markup};

/// A fixed part of a page.
#[derive(Clone, Copy)]
pub(crate) enum Part {
    /// What leads to the title.
    Start,
    /// To the style.
    Style,
    /// To the title as a heading.
    Heading,
    /// That there are certificates.
    Certified,
    /// What follows the list of them.
    AfterCertificates,
    /// To words on a stuck state.
    Stuck,
    /// To words on a search that gave up.
    Undecided,
    /// What follows words.
    AfterWords,
    /// To the layout.
    Tracks,
    /// To the graph.
    Graph,
    /// What follows a picture.
    AfterPicture,
    /// To the rows of the timetable.
    Timetable,
    /// What follows them.
    AfterRows,
    /// To the rows of sections.
    Sections,
    /// To remarks.
    Remarks,
    /// To the script.
    Script,
    /// The end of the page.
    End,
}

/// The text of a fixed part.
#[tactic(auto, unfolding(crate::specs::Markup::markup))]
pub(crate) fn markup(part: Part) -> &'static str
    ensures { result.now ≡ markup part }
{
    match part {
        Part::Start =>
            "<!DOCTYPE html>\n<html lang=\"en\">\n<head>\n<meta charset=\"utf-8\">\n<meta name=\"viewport\" content=\"width=device-width\">\n<meta http-equiv=\"Content-Security-Policy\" content=\"default-src 'none'; style-src 'unsafe-inline'; script-src 'unsafe-inline'\">\n<title>",
        Part::Style => "</title>\n<style>\n",
        Part::Heading => "</style>\n</head>\n<body>\n<main>\n<h1>",
        Part::Certified =>
            "</h1>\n<section id=\"verdict\" class=\"certified\">\n<h2>Certified</h2>\n<p>Trains may move in any order that the sections allow: all of them arrive. A certificate of this was found for each table.</p>\n<ul>\n",
        Part::AfterCertificates => "</ul>\n</section>\n",
        Part::Stuck =>
            "</h1>\n<section id=\"verdict\" class=\"open\">\n<h2>Not certified: a state is stuck</h2>\n<pre>",
        Part::Undecided =>
            "</h1>\n<section id=\"verdict\" class=\"open\">\n<h2>Not certified: the search gave up</h2>\n<pre>",
        Part::AfterWords => "</pre>\n</section>\n",
        Part::Tracks =>
            "<section id=\"run\"></section>\n<section id=\"layout\">\n<h2>Layout</h2>\n<div class=\"picture\"><template shadowrootmode=\"open\">\n",
        Part::Graph =>
            "<section id=\"graph\">\n<h2>Graph</h2>\n<div class=\"picture\"><template shadowrootmode=\"open\">\n",
        Part::AfterPicture => "</template></div>\n</section>\n",
        Part::Timetable =>
            "<section id=\"timetable\">\n<h2>Timetable</h2>\n<table>\n<thead><tr><th>train</th><th>point</th><th>arrives</th><th>leaves</th><th>waits</th><th></th></tr></thead>\n<tbody>\n",
        Part::AfterRows => "</tbody>\n</table>\n</section>\n",
        Part::Sections =>
            "<section id=\"sections\">\n<h2>Sections</h2>\n<p>What trains take of a section is never more than its limit: a train whose next step would pass it waits.</p>\n<table>\n<thead><tr><th>section</th><th>limit</th><th>trains, and the points at which they take 1, or more where it says so</th></tr></thead>\n<tbody>\n",
        Part::Remarks => "<section id=\"remarks\">\n<h2>Remarks</h2>\n<pre>",
        Part::Script => "</main>\n<script>\n",
        Part::End => "</script>\n</body>\n</html>\n",
    }
}
