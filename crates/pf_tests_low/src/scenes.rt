//! What happens in each run, and the pieces of its chart, by the middle of a column and of a row: of three processes
//! column K has its middle at 180 + 200 K, and row N at 79 + 26 N up to the 40th.

use crate::reports::{Did, ReportScene, RunEnd};
use pf_terms::AtomId;
use pf_trace::Actor;

/// A report, in which manner it is drawn, the names of the functions in whose calls its processes began, and what its
/// chart has and hasn't.
pub(crate) struct ChartScene {
    pub(crate) reported: ReportScene,
    pub(crate) is_compact: bool,
    pub(crate) names: &'static [&'static [u8]],
    pub(crate) pieces: &'static [&'static str],
    pub(crate) others: &'static [&'static str],
}

/// The name of the atom that a run makes: long, and with bytes that a document can't have.
pub(crate) const NAME: &[u8] =
    b"a&b<\xe9\x01\"abcdefghijklmnopqrstuvwxyzabcdefghijklmnopqrstuvwxyzabcdefghijklmnopqrstuvwxyz";

const ATOM: AtomId = AtomId(20);

const ROOT: Actor = Actor::Process(0);

const ONE: Actor = Actor::Process(1);

const TWO: Actor = Actor::Process(2);

const THREE: Actor = Actor::Process(3);

const ROOT_TO_TWO: Actor = Actor::Channel { from: 0, to: 2 };

const ROOT_TO_THREE: Actor = Actor::Channel { from: 0, to: 3 };

const ONE_TO_ROOT: Actor = Actor::Channel { from: 1, to: 0 };

const TWO_TO_ROOT: Actor = Actor::Channel { from: 2, to: 0 };

const TWO_TO_ONE: Actor = Actor::Channel { from: 2, to: 1 };

pub(crate) static SCENES: [ChartScene; 8] = [
    ARROWS, STARS, ENDS, DEADLOCK, COMPACT, NAMES, LONG_RUN, EMPTY,
];

/// Messages that arrive, one that is dropped, and three that are on their way at the end: to the right, to the left and
/// to oneself.
const ARROWS: ChartScene = ChartScene {
    reported: ReportScene {
        events: &[
            (0, ROOT, Did::Spawns(1)),
            (0, ROOT, Did::Spawns(2)),
            (0, ROOT, Did::Sends(2, 7)),
            (0, ROOT_TO_TWO, Did::Delivers(7)),
            (0, TWO, Did::Takes(7)),
            (0, ROOT, Did::Sends(2, 8)),
            (0, ROOT_TO_TWO, Did::Drops(8)),
            (2, TWO, Did::Sends(1, 9)),
            (0, ONE, Did::Sends(1, 9)),
            (0, ROOT, Did::Sends(2, 7)),
        ],
        references: 0,
        ends: RunEnd::AtLimit,
    },
    is_compact: false,
    names: &[],
    pieces: &[
        "<g class=\"process\" data-pid=\"2\"><title>&lt;2&gt; spawned by &lt;0&gt; in event 2</title>",
        "<text class=\"pid\" x=\"580\" y=\"57\">&lt;2&gt;</text><text class=\"of\" x=\"580\" y=\"73\">by &lt;0&gt;</text>",
        "<text class=\"number\" x=\"70\" y=\"135\">2</text>\n",
        "<g class=\"event spawn\" data-event=\"2\"",
        "<g class=\"arrow spawn\" data-event=\"2\"><path d=\"M180 131L580 131\"/></g>",
        "<g class=\"event send\" data-event=\"3\" transform=\"translate(180 157)\"><title>send &lt;2&gt; 7</title>",
        "<g class=\"arrow message\" data-event=\"3\" data-delivery=\"4\">\
<title>message from &lt;0&gt; to &lt;2&gt;</title>\
<path d=\"M180 157L580 183\"/></g>",
        "<g class=\"event receive\" data-event=\"5\"",
        "<g class=\"arrow message dropped\" data-event=\"6\" data-delivery=\"7\">",
        "data-event=\"7\" transform=\"translate(580 261)\"><title>deliver message dropped: 8</title><path d=\"M-6 -6l12 12M-6 6l12 -12\"/>",
        "<text class=\"choice\" x=\"6\" y=\"291\">*2/3</text><text class=\"number chosen\" x=\"70\" y=\"291\">8</text>\n",
        "<g class=\"event send chosen\" data-event=\"8\"",
        "<g class=\"arrow message lost\" data-event=\"8\">\
<title>message from &lt;2&gt; to &lt;1&gt;, never delivered</title>\
<path d=\"M580 287L480 307\"/></g>",
        "<path d=\"M380 313L358 333\"/></g>",
        "<g class=\"arrow message lost\" data-event=\"10\">\
<title>message from &lt;0&gt; to &lt;2&gt;, never delivered</title>\
<path d=\"M180 339L280 359\"/></g>",
    ],
    others: &["*0/", "data-event=\"11\""],
};

/// Another goes although the root could go on, and then although its child could; where the root waits or the child has
/// ended there is no star.
const STARS: ChartScene = ChartScene {
    reported: ReportScene {
        events: &[
            (0, ROOT, Did::Spawns(1)),
            (1, ONE, Did::Sends(0, 7)),
            (1, ONE_TO_ROOT, Did::Delivers(7)),
            (1, ROOT, Did::Waits),
            (1, ONE, Did::Ends(AtomId::NORMAL)),
            (1, ROOT, Did::Takes(7)),
        ],
        references: 0,
        ends: RunEnd::AtLimit,
    },
    is_compact: false,
    names: &[],
    pieces: &[
        "<text class=\"choice\" x=\"6\" y=\"135\">*1/3</text><text class=\"number chosen\" x=\"70\" y=\"135\">2</text>\n",
        "<text class=\"choice\" x=\"6\" y=\"161\">*1/3</text><text class=\"number chosen\" x=\"70\" y=\"161\">3</text>\n",
        "<text class=\"choice\" x=\"6\" y=\"187\">*1/3</text><text class=\"number chosen\" x=\"70\" y=\"187\">4</text>\n",
        "<text class=\"number\" x=\"70\" y=\"213\">5</text>\n",
        "<text class=\"number\" x=\"70\" y=\"239\">6</text>\n",
        "<title>deliver message: 7</title>",
        "<text class=\"outcome\" x=\"80\" y=\"24\">limit</text>",
    ],
    others: &["y=\"213\">*", "y=\"239\">*"],
};

/// A child that is watched, one that is linked and one that is neither, until each has ended. The link that is there
/// already sends nothing, nor does the demonitor, since its reference is active no more once the down has come. A link
/// to who has ended is answered by an exit.
const ENDS: ChartScene = ChartScene {
    reported: ReportScene {
        events: &[
            (0, ROOT, Did::SpawnsWatched(1)),
            (0, ROOT, Did::SpawnsLinked(2)),
            (0, ROOT, Did::Links(2)),
            (0, ROOT, Did::Spawns(3)),
            (0, ONE, Did::Ends(AtomId::NORMAL)),
            (0, ONE_TO_ROOT, Did::DownComes),
            (0, ROOT, Did::Flushes),
            (0, TWO, Did::Ends(AtomId::KILL)),
            (0, TWO_TO_ROOT, Did::ExitComes),
            (0, THREE, Did::Ends(AtomId::NORMAL)),
            (0, ROOT, Did::Links(3)),
            (0, ROOT_TO_THREE, Did::MissesLink),
        ],
        references: 0,
        ends: RunEnd::AtLimit,
    },
    is_compact: false,
    names: &[],
    pieces: &[
        "<g class=\"event watched\" data-event=\"1\" transform=\"translate(180 105)\"><title>spawn_monitor &lt;1&gt; #Ref&lt;0&gt;</title>",
        "<g class=\"arrow spawn\" data-event=\"1\"><path d=\"M180 105L380 105\"/></g>",
        "<g class=\"arrow down\" data-event=\"5\" data-delivery=\"6\">",
        ">demonitor #Ref&lt;0&gt; flush</text>",
        "<g class=\"event end\" data-event=\"5\"",
        "<g class=\"event end failed\" data-event=\"8\"",
        "<g class=\"process\" data-pid=\"1\">",
        "<g class=\"process failed\" data-pid=\"2\">",
        "<g class=\"arrow exit\" data-event=\"8\" data-delivery=\"9\">",
        "<g class=\"arrow link dropped\" data-event=\"11\" data-delivery=\"12\">",
        "<g class=\"arrow exit lost\" data-event=\"12\">",
    ],
    others: &[
        "arrow monitor",
        "arrow demonitor",
        "arrow link\"",
        "arrow link lost",
    ],
};

/// Who is in a deadlock is red from the last wait on.
const DEADLOCK: ChartScene = ChartScene {
    reported: ReportScene {
        events: &[
            (0, ROOT, Did::Spawns(1)),
            (0, ROOT, Did::Spawns(2)),
            (0, ONE, Did::Ends(AtomId::NORMAL)),
            (0, ROOT, Did::Waits),
            (0, TWO, Did::Waits),
        ],
        references: 0,
        ends: RunEnd::InDeadlock(&[0, 2]),
    },
    is_compact: false,
    names: &[],
    pieces: &[
        "<g class=\"process deadlocked\" data-pid=\"0\">",
        "<line class=\"life waiting\" x1=\"180\" y1=\"183\" x2=\"180\" y2=\"248\"/>",
        "<text class=\"pid\" x=\"180\" y=\"265\">&lt;0&gt;</text><text class=\"of\" x=\"180\" y=\"281\">main</text>\
<text class=\"foot\" x=\"180\" y=\"302\">waits</text>",
        "<g class=\"process\" data-pid=\"1\">",
        "<g class=\"process deadlocked\" data-pid=\"2\">",
        ">deadlock &lt;0&gt; &lt;2&gt;</text>",
    ],
    others: &[],
};

/// A compact chart joins a send and the receive that takes the message. The second message is never received.
const COMPACT: ChartScene = ChartScene {
    reported: ReportScene {
        events: &[
            (0, ROOT, Did::Spawns(1)),
            (0, ROOT, Did::Spawns(2)),
            (0, ROOT, Did::Sends(2, 7)),
            (0, TWO, Did::Waits),
            (1, ROOT_TO_TWO, Did::Delivers(7)),
            (0, TWO, Did::Takes(7)),
            (0, TWO, Did::Sends(1, 8)),
            (0, TWO_TO_ONE, Did::Delivers(8)),
            (0, TWO, Did::Links(1)),
            (0, TWO_TO_ONE, Did::LinkComes),
        ],
        references: 0,
        ends: RunEnd::AtLimit,
    },
    is_compact: true,
    names: &[],
    pieces: &[
        "<g class=\"event receive\" data-event=\"6\" transform=\"translate(580 183)\">",
        "<g class=\"arrow message chosen\" data-event=\"3\" data-receive=\"6\">\
<title>message from &lt;0&gt; to &lt;2&gt;, delivered by a choice above 0</title>\
<path d=\"M180 157L580 183\"/></g>",
        "<g class=\"arrow message lost\" data-event=\"7\"><title>message from &lt;2&gt; to &lt;1&gt;, never received</title>",
        "<g class=\"arrow link\" data-event=\"9\" data-delivery=\"10\">",
    ],
    others: &[
        "data-event=\"4\"",
        "data-event=\"5\"",
        "data-event=\"8\"",
        "deliver message",
        "*1/3",
    ],
};

/// A head has the function in whose call its process began, or else who spawned it.
const NAMES: ChartScene = ChartScene {
    reported: ReportScene {
        events: &[
            (0, ROOT, Did::Spawns(1)),
            (0, ONE, Did::Spawns(2)),
            (0, ROOT, Did::Spawns(3)),
        ],
        references: 0,
        ends: RunEnd::AtLimit,
    },
    is_compact: false,
    names: &[
        b"main/0",
        b"",
        b"'a<b&abcdefghijklmnopqrstuvwxyzabcdefghijklmnopqrstuvwxyz'/1",
    ],
    pieces: &[
        "<title>Run of main</title>",
        "<g class=\"process\" data-pid=\"0\"><title>&lt;0&gt; from main/0</title>",
        "<text class=\"of\" x=\"180\" y=\"73\">main/0</text>",
        "<g class=\"process\" data-pid=\"1\"><title>&lt;1&gt; spawned by &lt;0&gt; in event 1</title>",
        "<text class=\"of\" x=\"380\" y=\"73\">by &lt;0&gt;</text>",
        "<title>&lt;2&gt; 'a&lt;b&amp;abcdefghijklmnopqrstuvwxyzabcdefghijklmnopqrstuvwxyz'/1 spawned by &lt;1&gt; in event 2</title>",
        ">'a&lt;b&amp;abcdefghijklmnopqrstuvw...</text>",
        "<text class=\"of\" x=\"780\" y=\"73\">by &lt;0&gt;</text>",
    ],
    others: &[">main</text>", ">by &lt;1&gt;</text>"],
};

/// Heads are repeated after 40 rows and at the foot. What is long is shortened, and whole in its tooltip; labels are
/// escaped.
const LONG_RUN: ChartScene = ChartScene {
    reported: ReportScene {
        events: &[(0, ROOT, Did::TakesAtom(ATOM))],
        references: 40,
        ends: RunEnd::With(ATOM),
    },
    is_compact: false,
    names: &[],
    pieces: &[
        "<title>receive 'a&amp;b&lt;&#233;&#65533;&quot;abcdefghijklmnopqrstuvwxyzabcdefghijklmnopqrstuvwxyzabcdefghijklmnopqrstuvwxyz'</title>",
        ">receive 'a&amp;b&lt;&#233;&#65533;&quot;abcdefghijklmnop...</text>",
        "data-event=\"40\" transform=\"translate(180 1119)\">",
        "<text class=\"pid\" x=\"180\" y=\"1155\">&lt;0&gt;</text><text class=\"of\" x=\"180\" y=\"1171\">main</text>",
        "data-event=\"41\" transform=\"translate(180 1197)\">",
        "<text class=\"pid\" x=\"180\" y=\"1253\">&lt;0&gt;</text><text class=\"of\" x=\"180\" y=\"1269\">main</text>",
        "<title>finished 'a&amp;b&lt;&#233;&#65533;&quot;abcdefghijklmnopqrstuvwxyzabcdefghijklmnopqrstuvwxyzabcdefghijklmnopqrstuvwxyz'</title>",
        ">finished 'a&amp;b&lt;&#233;&#65533;&quot;abcdefghijklmnopqrstuvwxyzabcdefghijklmnopqrstuvw...</text>",
    ],
    others: &["class=\"page\""],
};

/// No event, since there was no memory.
const EMPTY: ChartScene = ChartScene {
    reported: ReportScene {
        events: &[],
        references: 0,
        ends: RunEnd::WithoutMemory,
    },
    is_compact: false,
    names: &[],
    pieces: &[
        "<svg xmlns=\"http://www.w3.org/2000/svg\" role=\"img\" width=\"760\"",
        "<g class=\"process\" data-pid=\"0\"><title>&lt;0&gt; from main</title>",
        "<text class=\"of\" x=\"180\" y=\"73\">main</text>",
        "y=\"202\">memory</text>",
    ],
    others: &["class=\"event"],
};
