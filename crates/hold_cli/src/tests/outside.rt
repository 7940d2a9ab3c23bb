//! What is outside the form that is served: tables with a row for each way, beside what is just within it. What
//! has too many of something stands in `limits`. An `@` in a job stands for more letters than a name may have.

/// Texts that are no job of the form.
pub(super) static JOBS: [&[u8]; 36] = [
    // No TOML, and no text.
    b"netlist = ",
    b"# \xff\nnetlist = \"e.v\"\noutput = \"e_out.v\"\ncertificate = \"e.cert\"\nperiod = 1000\ncorner = [{ name = \"typ\" }]\n",
    // A key is missing.
    b"output = \"e_out.v\"\ncertificate = \"e.cert\"\nperiod = 1000\ncorner = [{ name = \"typ\" }]\n",
    b"netlist = \"e.v\"\ncertificate = \"e.cert\"\nperiod = 1000\ncorner = [{ name = \"typ\" }]\n",
    b"netlist = \"e.v\"\noutput = \"e_out.v\"\nperiod = 1000\ncorner = [{ name = \"typ\" }]\n",
    b"netlist = \"e.v\"\noutput = \"e_out.v\"\ncertificate = \"e.cert\"\ncorner = [{ name = \"typ\" }]\n",
    b"netlist = \"e.v\"\noutput = \"e_out.v\"\ncertificate = \"e.cert\"\nperiod = 1000\n",
    // A value of another kind.
    b"netlist = 1\noutput = \"e_out.v\"\ncertificate = \"e.cert\"\nperiod = 1000\ncorner = [{ name = \"typ\" }]\n",
    b"netlist = \"e.v\"\noutput = 1\ncertificate = \"e.cert\"\nperiod = 1000\ncorner = [{ name = \"typ\" }]\n",
    b"netlist = \"e.v\"\noutput = \"e_out.v\"\ncertificate = []\nperiod = 1000\ncorner = [{ name = \"typ\" }]\n",
    b"netlist = \"e.v\"\noutput = \"e_out.v\"\ncertificate = \"e.cert\"\nperiod = 1000.0\ncorner = [{ name = \"typ\" }]\n",
    b"netlist = \"e.v\"\noutput = \"e_out.v\"\ncertificate = \"e.cert\"\nperiod = 1000\ncorner = 1\n",
    // A value out of its range.
    b"netlist = \"\"\noutput = \"e_out.v\"\ncertificate = \"e.cert\"\nperiod = 1000\ncorner = [{ name = \"typ\" }]\n",
    b"netlist = \"e.v\"\noutput = \"\"\ncertificate = \"e.cert\"\nperiod = 1000\ncorner = [{ name = \"typ\" }]\n",
    b"netlist = \"e.v\"\noutput = \"e_out.v\"\ncertificate = \"\"\nperiod = 1000\ncorner = [{ name = \"typ\" }]\n",
    b"netlist = \"e.v\"\noutput = \"e_out.v\"\ncertificate = \"e.cert\"\nperiod = 0\ncorner = [{ name = \"typ\" }]\n",
    b"netlist = \"e.v\"\noutput = \"e_out.v\"\ncertificate = \"e.cert\"\nperiod = 10000000001\ncorner = [{ name = \"typ\" }]\n",
    // Names of files that are too long.
    b"netlist = \"@\"\noutput = \"e_out.v\"\ncertificate = \"e.cert\"\nperiod = 1000\ncorner = [{ name = \"typ\" }]\n",
    b"netlist = \"e.v\"\noutput = \"@\"\ncertificate = \"e.cert\"\nperiod = 1000\ncorner = [{ name = \"typ\" }]\n",
    b"netlist = \"e.v\"\noutput = \"e_out.v\"\ncertificate = \"@\"\nperiod = 1000\ncorner = [{ name = \"typ\" }]\n",
    // No corner, more than one, and one that isn't a name alone.
    b"netlist = \"e.v\"\noutput = \"e_out.v\"\ncertificate = \"e.cert\"\nperiod = 1000\ncorner = []\n",
    b"netlist = \"e.v\"\noutput = \"e_out.v\"\ncertificate = \"e.cert\"\nperiod = 1000\ncorner = [{ name = \"typ\" }, { name = \"slow\" }]\n",
    b"netlist = \"e.v\"\noutput = \"e_out.v\"\ncertificate = \"e.cert\"\nperiod = 1000\ncorner = [1]\n",
    b"netlist = \"e.v\"\noutput = \"e_out.v\"\ncertificate = \"e.cert\"\nperiod = 1000\ncorner = [{}]\n",
    b"netlist = \"e.v\"\noutput = \"e_out.v\"\ncertificate = \"e.cert\"\nperiod = 1000\ncorner = [{ name = \"typ\", sdf = \"e.sdf\" }]\n",
    b"netlist = \"e.v\"\noutput = \"e_out.v\"\ncertificate = \"e.cert\"\nperiod = 1000\ncorner = [{ name = \"typ\", late = 1 }]\n",
    // Names that no corner has.
    b"netlist = \"e.v\"\noutput = \"e_out.v\"\ncertificate = \"e.cert\"\nperiod = 1000\ncorner = [{ name = 1 }]\n",
    b"netlist = \"e.v\"\noutput = \"e_out.v\"\ncertificate = \"e.cert\"\nperiod = 1000\ncorner = [{ name = \"\" }]\n",
    b"netlist = \"e.v\"\noutput = \"e_out.v\"\ncertificate = \"e.cert\"\nperiod = 1000\ncorner = [{ name = \"a b\" }]\n",
    b"netlist = \"e.v\"\noutput = \"e_out.v\"\ncertificate = \"e.cert\"\nperiod = 1000\ncorner = [{ name = \"\\u00e9\" }]\n",
    b"netlist = \"e.v\"\noutput = \"e_out.v\"\ncertificate = \"e.cert\"\nperiod = 1000\ncorner = [{ name = \"aaaaaaaaaaaaaaaaaaaaaaaaaaaaaaaaaaaaaaaaaaaaaaaaaaaaaaaaaaaaaaaaa\" }]\n",
    // One name for two files.
    b"netlist = \"e.v\"\noutput = \"e.toml\"\ncertificate = \"e.cert\"\nperiod = 1000\ncorner = [{ name = \"typ\" }]\n",
    b"netlist = \"e.v\"\noutput = \"e.v\"\ncertificate = \"e.cert\"\nperiod = 1000\ncorner = [{ name = \"typ\" }]\n",
    b"netlist = \"e.v\"\noutput = \"e.cert\"\ncertificate = \"e.cert\"\nperiod = 1000\ncorner = [{ name = \"typ\" }]\n",
    b"netlist = \"e.v\"\noutput = \"e_out.v\"\ncertificate = \"e.toml\"\nperiod = 1000\ncorner = [{ name = \"typ\" }]\n",
    b"netlist = \"e.v\"\noutput = \"e_out.v\"\ncertificate = \"e.v\"\nperiod = 1000\ncorner = [{ name = \"typ\" }]\n",
];

/// What a job of the form may begin with, and be.
pub(super) const JOB_HEAD: &[u8] =
    b"netlist = \"e.v\"\noutput = \"e_out.v\"\ncertificate = \"e.cert\"\nperiod = 1000\ncorner = [{ name = \"typ\" }]\n";

/// Lines that a job of the form may have.
pub(super) static SERVED_LINES: [&[u8]; 6] = [
    // Names of the first and of the last byte that they may have, and lists that are left out.
    b"type = [{ name = \"!~\", role = \"comb\", inputs = [\"!\"], outputs = [\"~\"] }]",
    b"type = [{ name = \"A\", role = \"comb\" }, { name = \"B\", role = \"register\", clock = \"c\" }]",
    // Times at their ends, an arc of each role, and a check.
    b"arrival = [[-10000000000, 10000000000]]",
    b"type = [{ name = \"A\", role = \"comb\", inputs = [\"a\"], outputs = [\"y\"], arcs = [{ from = \"a\", to = \"y\", spans = [[-10000000000, 10000000000]] }] }]",
    b"type = [{ name = \"A\", role = \"register\", clock = \"c\", data = [\"d\"], outputs = [\"q\"], arcs = [{ from = \"c\", to = \"q\", spans = [[1, 1]] }], checks = [{ pin = \"d\", setup = [-10000000000], hold = [10000000000] }] }]",
    b"type = [{ name = \"A\", role = \"register\", clock = \"c\", data = [\"d\"], outputs = [\"q\"], checks = [{ pin = \"d\", setup = [10000000000], hold = [-10000000000] }] }]",
];

/// Lines that make it no job of the form.
pub(super) static LINES: [&[u8]; 155] = [
    // Keys that aren't served, and one that no job has.
    b"sdf = \"e.sdf\"",
    b"plan = \"p\"",
    b"nodes = 1",
    b"searchers = 1",
    b"order = 1",
    b"keep = []",
    b"quiet = []",
    b"perid = 1",
    // Arrivals that are no spans of one corner.
    b"arrival = 1",
    b"arrival = []",
    b"arrival = [[0, 0], [0, 0]]",
    b"arrival = [0]",
    b"arrival = [[0]]",
    b"arrival = [[0, 0, 0]]",
    b"arrival = [[0, 0.0]]",
    b"arrival = [[0.0, 0]]",
    b"arrival = [[1, 0]]",
    b"arrival = [[-10000000001, 0]]",
    b"arrival = [[0, 10000000001]]",
    // Clocks.
    b"clock = 1",
    b"clock = [1]",
    b"clock = [{ arrivals = [[0, 0]] }]",
    b"clock = [{ inst = 1, arrivals = [[0, 0]] }]",
    b"clock = [{ inst = \"\", arrivals = [[0, 0]] }]",
    b"clock = [{ inst = \"a b\", arrivals = [[0, 0]] }]",
    b"clock = [{ inst = \"\\u00e9\", arrivals = [[0, 0]] }]",
    b"clock = [{ inst = \"@\", arrivals = [[0, 0]] }]",
    b"clock = [{ inst = \"u\" }]",
    b"clock = [{ inst = \"u\", arrivals = 0 }]",
    b"clock = [{ inst = \"u\", arrivals = [] }]",
    b"clock = [{ inst = \"u\", arrivals = [[0, 0], [0, 0]] }]",
    b"clock = [{ inst = \"u\", arrivals = [0] }]",
    b"clock = [{ inst = \"u\", arrivals = [[0]] }]",
    b"clock = [{ inst = \"u\", arrivals = [[0, 0, 0]] }]",
    b"clock = [{ inst = \"u\", arrivals = [[0.0, 0]] }]",
    b"clock = [{ inst = \"u\", arrivals = [[0, 0.0]] }]",
    b"clock = [{ inst = \"u\", arrivals = [[1, 0]] }]",
    b"clock = [{ inst = \"u\", arrivals = [[-10000000001, 0]] }]",
    b"clock = [{ inst = \"u\", arrivals = [[0, 10000000001]] }]",
    b"clock = [{ inst = \"u\", arrivals = [[0, 0]], least = 0 }]",
    // A clock that stands twice.
    b"clock = [{ inst = \"u\", arrivals = [[0, 0]] }, { inst = \"u\", arrivals = [[1, 1]] }]",
    // Types without a name or a role, and roles that aren't served.
    b"type = 1",
    b"type = [1]",
    b"type = [{ role = \"comb\" }]",
    b"type = [{ role = \"register\", clock = \"c\" }]",
    b"type = [{ name = \"A\" }]",
    b"type = [{ name = \"A\", role = 1 }]",
    b"type = [{ name = \"A\", role = \"latch\" }]",
    b"type = [{ name = \"A\", role = \"opaque\" }]",
    // Keys that a role hasn't, a register without a clock, and one with quiet pins.
    b"type = [{ name = \"A\", role = \"comb\", data = [\"d\"] }]",
    b"type = [{ name = \"A\", role = \"comb\", quiet = [\"r\"] }]",
    b"type = [{ name = \"A\", role = \"comb\", clock = \"c\" }]",
    b"type = [{ name = \"A\", role = \"comb\", checks = [] }]",
    b"type = [{ name = \"A\", role = \"comb\", late = 1 }]",
    b"type = [{ name = \"A\", role = \"register\", clock = \"c\", inputs = [\"d\"] }]",
    b"type = [{ name = \"A\", role = \"register\", clock = \"c\", late = 1 }]",
    b"type = [{ name = \"A\", role = \"register\" }]",
    b"type = [{ name = \"A\", role = \"register\", clock = 1 }]",
    b"type = [{ name = \"A\", role = \"register\", clock = \"c\", quiet = [\"r\"] }]",
    // Names that no type and no pin has.
    b"type = [{ name = 1, role = \"comb\" }]",
    b"type = [{ name = \"\", role = \"comb\" }]",
    b"type = [{ name = \"a b\", role = \"comb\" }]",
    b"type = [{ name = \"\\u00e9\", role = \"comb\" }]",
    b"type = [{ name = \"@\", role = \"comb\" }]",
    b"type = [{ name = \"A\", role = \"comb\", inputs = \"a\" }]",
    b"type = [{ name = \"A\", role = \"comb\", inputs = [1] }]",
    b"type = [{ name = \"A\", role = \"comb\", inputs = [\"\"] }]",
    b"type = [{ name = \"A\", role = \"comb\", inputs = [\"a b\"] }]",
    b"type = [{ name = \"A\", role = \"comb\", inputs = [\"\\u00e9\"] }]",
    b"type = [{ name = \"A\", role = \"comb\", inputs = [\"@\"] }]",
    b"type = [{ name = \"A\", role = \"comb\", outputs = 1 }]",
    b"type = [{ name = \"A\", role = \"comb\", outputs = [1] }]",
    b"type = [{ name = \"A\", role = \"comb\", outputs = [\"\"] }]",
    b"type = [{ name = \"A\", role = \"comb\", outputs = [\"a b\"] }]",
    b"type = [{ name = \"A\", role = \"comb\", outputs = [\"\\u00e9\"] }]",
    b"type = [{ name = \"A\", role = \"comb\", outputs = [\"@\"] }]",
    b"type = [{ name = \"A\", role = \"register\", clock = \"\" }]",
    b"type = [{ name = \"A\", role = \"register\", clock = \"a b\" }]",
    b"type = [{ name = \"A\", role = \"register\", clock = \"\\u00e9\" }]",
    b"type = [{ name = \"A\", role = \"register\", clock = \"@\" }]",
    b"type = [{ name = \"A\", role = \"register\", clock = \"c\", data = 1 }]",
    b"type = [{ name = \"A\", role = \"register\", clock = \"c\", data = [1] }]",
    b"type = [{ name = \"A\", role = \"register\", clock = \"c\", data = [\"\"] }]",
    b"type = [{ name = \"A\", role = \"register\", clock = \"c\", data = [\"a b\"] }]",
    b"type = [{ name = \"A\", role = \"register\", clock = \"c\", data = [\"\\u00e9\"] }]",
    b"type = [{ name = \"A\", role = \"register\", clock = \"c\", data = [\"@\"] }]",
    b"type = [{ name = \"A\", role = \"register\", clock = \"c\", outputs = 1 }]",
    b"type = [{ name = \"A\", role = \"register\", clock = \"c\", outputs = [1] }]",
    b"type = [{ name = \"A\", role = \"register\", clock = \"c\", outputs = [\"\"] }]",
    b"type = [{ name = \"A\", role = \"register\", clock = \"c\", outputs = [\"a b\"] }]",
    b"type = [{ name = \"A\", role = \"register\", clock = \"c\", outputs = [\"\\u00e9\"] }]",
    b"type = [{ name = \"A\", role = \"register\", clock = \"c\", outputs = [\"@\"] }]",
    // Pins of a type that share a name.
    b"type = [{ name = \"A\", role = \"comb\", inputs = [\"a\", \"a\"] }]",
    b"type = [{ name = \"A\", role = \"comb\", inputs = [\"a\"], outputs = [\"a\"] }]",
    b"type = [{ name = \"A\", role = \"comb\", outputs = [\"y\", \"y\"] }]",
    b"type = [{ name = \"A\", role = \"register\", clock = \"c\", data = [\"c\"] }]",
    b"type = [{ name = \"A\", role = \"register\", clock = \"c\", data = [\"d\", \"d\"] }]",
    b"type = [{ name = \"A\", role = \"register\", clock = \"c\", outputs = [\"c\"] }]",
    b"type = [{ name = \"A\", role = \"register\", clock = \"c\", outputs = [\"q\", \"q\"] }]",
    b"type = [{ name = \"A\", role = \"register\", clock = \"c\", data = [\"d\"], outputs = [\"d\"] }]",
    // Types that share a name.
    b"type = [{ name = \"A\", role = \"comb\" }, { name = \"A\", role = \"register\", clock = \"c\" }]",
    // Arcs of the wrong form.
    b"type = [{ name = \"A\", role = \"comb\", inputs = [\"a\"], outputs = [\"y\"], arcs = 1 }]",
    b"type = [{ name = \"A\", role = \"comb\", inputs = [\"a\"], outputs = [\"y\"], arcs = [1] }]",
    b"type = [{ name = \"A\", role = \"register\", clock = \"c\", data = [\"d\"], outputs = [\"q\"], arcs = 1 }]",
    b"type = [{ name = \"A\", role = \"register\", clock = \"c\", data = [\"d\"], outputs = [\"q\"], arcs = [1] }]",
    b"type = [{ name = \"A\", role = \"comb\", inputs = [\"a\"], outputs = [\"y\"], arcs = [{ to = \"y\", spans = [[1, 1]] }] }]",
    b"type = [{ name = \"A\", role = \"comb\", inputs = [\"a\"], outputs = [\"y\"], arcs = [{ from = \"a\", spans = [[1, 1]] }] }]",
    b"type = [{ name = \"A\", role = \"comb\", inputs = [\"a\"], outputs = [\"y\"], arcs = [{ from = \"a\", to = \"y\" }] }]",
    b"type = [{ name = \"A\", role = \"comb\", inputs = [\"a\"], outputs = [\"y\"], arcs = [{ from = 1, to = \"y\", spans = [[1, 1]] }] }]",
    b"type = [{ name = \"A\", role = \"comb\", inputs = [\"a\"], outputs = [\"y\"], arcs = [{ from = \"a\", to = 1, spans = [[1, 1]] }] }]",
    b"type = [{ name = \"A\", role = \"comb\", inputs = [\"a\"], outputs = [\"y\"], arcs = [{ from = \"a\", to = \"y\", spans = 1 }] }]",
    b"type = [{ name = \"A\", role = \"comb\", inputs = [\"a\"], outputs = [\"y\"], arcs = [{ from = \"a\", to = \"y\", spans = [] }] }]",
    b"type = [{ name = \"A\", role = \"comb\", inputs = [\"a\"], outputs = [\"y\"], arcs = [{ from = \"a\", to = \"y\", spans = [[2, 1]] }] }]",
    b"type = [{ name = \"A\", role = \"comb\", inputs = [\"a\"], outputs = [\"y\"], arcs = [{ from = \"a\", to = \"y\", spans = [[1, 1], [1, 1]] }] }]",
    b"type = [{ name = \"A\", role = \"comb\", inputs = [\"a\"], outputs = [\"y\"], arcs = [{ from = \"a\", to = \"y\", spans = [1] }] }]",
    b"type = [{ name = \"A\", role = \"comb\", inputs = [\"a\"], outputs = [\"y\"], arcs = [{ from = \"a\", to = \"y\", spans = [[1]] }] }]",
    b"type = [{ name = \"A\", role = \"comb\", inputs = [\"a\"], outputs = [\"y\"], arcs = [{ from = \"a\", to = \"y\", spans = [[1, 1, 1]] }] }]",
    b"type = [{ name = \"A\", role = \"comb\", inputs = [\"a\"], outputs = [\"y\"], arcs = [{ from = \"a\", to = \"y\", spans = [[1.0, 1]] }] }]",
    b"type = [{ name = \"A\", role = \"comb\", inputs = [\"a\"], outputs = [\"y\"], arcs = [{ from = \"a\", to = \"y\", spans = [[1, 1.0]] }] }]",
    b"type = [{ name = \"A\", role = \"comb\", inputs = [\"a\"], outputs = [\"y\"], arcs = [{ from = \"a\", to = \"y\", spans = [[-10000000001, 1]] }] }]",
    b"type = [{ name = \"A\", role = \"comb\", inputs = [\"a\"], outputs = [\"y\"], arcs = [{ from = \"a\", to = \"y\", spans = [[1, 10000000001]] }] }]",
    b"type = [{ name = \"A\", role = \"comb\", inputs = [\"a\"], outputs = [\"y\"], arcs = [{ from = \"a\", to = \"y\", spans = [[1, 1]], at = 1 }] }]",
    // Arcs that don't lead from an input, or from the clock, to an output.
    b"type = [{ name = \"A\", role = \"comb\", inputs = [\"a\"], outputs = [\"y\"], arcs = [{ from = \"y\", to = \"y\", spans = [[1, 1]] }] }]",
    b"type = [{ name = \"A\", role = \"comb\", inputs = [\"a\"], outputs = [\"y\"], arcs = [{ from = \"a\", to = \"a\", spans = [[1, 1]] }] }]",
    b"type = [{ name = \"A\", role = \"comb\", inputs = [\"a\"], outputs = [\"y\"], arcs = [{ from = \"b\", to = \"y\", spans = [[1, 1]] }] }]",
    b"type = [{ name = \"A\", role = \"comb\", inputs = [\"a\"], outputs = [\"y\"], arcs = [{ from = \"a\", to = \"z\", spans = [[1, 1]] }] }]",
    b"type = [{ name = \"A\", role = \"register\", clock = \"c\", data = [\"d\"], outputs = [\"q\"], arcs = [{ from = \"d\", to = \"q\", spans = [[1, 1]] }] }]",
    b"type = [{ name = \"A\", role = \"register\", clock = \"c\", data = [\"d\"], outputs = [\"q\"], arcs = [{ from = \"c\", to = \"d\", spans = [[1, 1]] }] }]",
    b"type = [{ name = \"A\", role = \"register\", clock = \"c\", data = [\"d\"], outputs = [\"q\"], arcs = [{ from = \"b\", to = \"q\", spans = [[1, 1]] }] }]",
    b"type = [{ name = \"A\", role = \"register\", clock = \"c\", data = [\"d\"], outputs = [\"q\"], arcs = [{ from = \"c\", to = \"z\", spans = [[1, 1]] }] }]",
    // An arc that stands twice.
    b"type = [{ name = \"A\", role = \"comb\", inputs = [\"a\"], outputs = [\"y\"], arcs = [{ from = \"a\", to = \"y\", spans = [[1, 1]] }, { from = \"a\", to = \"y\", spans = [[2, 2]] }] }]",
    b"type = [{ name = \"A\", role = \"register\", clock = \"c\", data = [\"d\"], outputs = [\"q\"], arcs = [{ from = \"c\", to = \"q\", spans = [[1, 1]] }, { from = \"c\", to = \"q\", spans = [[2, 2]] }] }]",
    // Checks of the wrong form, of a pin without data, and one that stands twice.
    b"type = [{ name = \"A\", role = \"register\", clock = \"c\", data = [\"d\"], checks = 1 }]",
    b"type = [{ name = \"A\", role = \"register\", clock = \"c\", data = [\"d\"], checks = [1] }]",
    b"type = [{ name = \"A\", role = \"register\", clock = \"c\", data = [\"d\"], checks = [{ setup = [1], hold = [1] }] }]",
    b"type = [{ name = \"A\", role = \"register\", clock = \"c\", data = [\"d\"], checks = [{ pin = \"d\", hold = [1] }] }]",
    b"type = [{ name = \"A\", role = \"register\", clock = \"c\", data = [\"d\"], checks = [{ pin = \"d\", setup = [1] }] }]",
    b"type = [{ name = \"A\", role = \"register\", clock = \"c\", data = [\"d\"], checks = [{ pin = 1, setup = [1], hold = [1] }] }]",
    b"type = [{ name = \"A\", role = \"register\", clock = \"c\", data = [\"d\"], checks = [{ pin = \"d\", setup = 1, hold = [1] }] }]",
    b"type = [{ name = \"A\", role = \"register\", clock = \"c\", data = [\"d\"], checks = [{ pin = \"d\", setup = [1], hold = 1 }] }]",
    b"type = [{ name = \"A\", role = \"register\", clock = \"c\", data = [\"d\"], checks = [{ pin = \"d\", setup = [], hold = [1] }] }]",
    b"type = [{ name = \"A\", role = \"register\", clock = \"c\", data = [\"d\"], checks = [{ pin = \"d\", setup = [1], hold = [] }] }]",
    b"type = [{ name = \"A\", role = \"register\", clock = \"c\", data = [\"d\"], checks = [{ pin = \"d\", setup = [1, 2], hold = [1] }] }]",
    b"type = [{ name = \"A\", role = \"register\", clock = \"c\", data = [\"d\"], checks = [{ pin = \"d\", setup = [1], hold = [1, 2] }] }]",
    b"type = [{ name = \"A\", role = \"register\", clock = \"c\", data = [\"d\"], checks = [{ pin = \"d\", setup = [1.0], hold = [1] }] }]",
    b"type = [{ name = \"A\", role = \"register\", clock = \"c\", data = [\"d\"], checks = [{ pin = \"d\", setup = [1], hold = [1.0] }] }]",
    b"type = [{ name = \"A\", role = \"register\", clock = \"c\", data = [\"d\"], checks = [{ pin = \"d\", setup = [-10000000001], hold = [1] }] }]",
    b"type = [{ name = \"A\", role = \"register\", clock = \"c\", data = [\"d\"], checks = [{ pin = \"d\", setup = [10000000001], hold = [1] }] }]",
    b"type = [{ name = \"A\", role = \"register\", clock = \"c\", data = [\"d\"], checks = [{ pin = \"d\", setup = [1], hold = [-10000000001] }] }]",
    b"type = [{ name = \"A\", role = \"register\", clock = \"c\", data = [\"d\"], checks = [{ pin = \"d\", setup = [1], hold = [10000000001] }] }]",
    b"type = [{ name = \"A\", role = \"register\", clock = \"c\", data = [\"d\"], checks = [{ pin = \"d\", setup = [1], hold = [1], span = 1 }] }]",
    b"type = [{ name = \"A\", role = \"register\", clock = \"c\", data = [\"d\"], checks = [{ pin = \"c\", setup = [1], hold = [1] }] }]",
    b"type = [{ name = \"A\", role = \"register\", clock = \"c\", data = [\"d\"], checks = [{ pin = \"e\", setup = [1], hold = [1] }] }]",
    b"type = [{ name = \"A\", role = \"register\", clock = \"c\", data = [\"d\"], outputs = [\"q\"], checks = [{ pin = \"q\", setup = [1], hold = [1] }] }]",
    b"type = [{ name = \"A\", role = \"register\", clock = \"c\", data = [\"d\"], checks = [{ pin = \"d\", setup = [1], hold = [1] }, { pin = \"d\", setup = [1], hold = [1] }] }]",
];

/// What stands in modules with an input and an output that are served.
pub(super) static SERVED_BODIES: [&[u8]; 11] = [
    // A wire, drivers of each kind, and a gate without an output.
    b"  wire b;\n",
    b"  INV u1(.A(a), .Y(y));\n",
    b"  DFF u1(.C(a), .Q(y));\n",
    b"  INV u1(.A(1'b0), .Y(y));\n",
    b"  AND u1(.B(a));\n",
    // Open pins and pins that are left out, which ask for no more than their types have.
    b"  AND u1();\n",
    b"  AND u1(.A(a), .Y());\n",
    b"  AND u1(.A(), .B(), .Y());\n",
    b"  DFF u1(.C(a), .D(), .Q());\n",
    b"  SLOW u1(.D(a));\n",
    b"  LOOSE u1(.Q(y));\n",
];

/// What stands in modules with an input and an output that aren't served.
pub(super) static BODIES: [&[u8]; 31] = [
    // Vectors, assignments of a net and of a constant, and both in one.
    b"  wire [3:0] b;\n",
    b"  wire [0:0] b;\n",
    b"  assign y = a;\n",
    b"  assign y = 1'b0;\n",
    b"  wire [1:0] b;\n  assign b[1] = a;\n",
    // A type that isn't listed, with pins and without, and pins that their types haven't.
    b"  OR u1(.A(a), .Y(y));\n",
    b"  OR u1();\n",
    b"  INV u1(.A(a), .Z(y));\n",
    b"  DFF u1(.C(a), .R(1'b0));\n",
    // Outputs tied to a constant.
    b"  INV u1(.A(a), .Y(1'b0));\n",
    b"  DFF u1(.C(a), .Q(1'b1));\n",
    // Nets with two drivers: two outputs, of gates and of registers, and a port and an output.
    b"  INV u1(.A(a), .Y(y));\n  INV u2(.A(a), .Y(y));\n",
    b"  DFF u1(.C(a), .Q(y));\n  INV u2(.A(a), .Y(y));\n",
    b"  INV u1(.A(y), .Y(a));\n",
    b"  DFF u1(.C(a), .Q(y));\n  DFF u2(.C(a), .Q(y));\n",
    b"  DFF u1(.Q(a));\n",
    // Two connected inputs, also where no delay is asked for.
    b"  AND u1(.A(a), .B(1'b1), .Y(y));\n",
    b"  AND u1(.A(a), .B(a));\n",
    b"  AND u1(.A(a), .B(1'b1));\n",
    b"  AND u1(.A(1'b0), .B(1'b1));\n",
    // A gate that is driven by itself, and one that a later one drives.
    b"  INV u1(.A(y), .Y(y));\n",
    b"  wire b;\n  INV u1(.A(b), .Y(y));\n  INV u2(.A(a), .Y(b));\n",
    // A delay of a gate or of a register that the job hasn't, and a check.
    b"  AND u1(.B(a), .Y(y));\n",
    b"  AND u1(.B(1'b0), .Y(y));\n",
    b"  SLOW u1(.C(a), .D(1'b0), .Q(y));\n",
    b"  LOOSE u1(.C(a), .D(1'b0), .Q(y));\n",
    // The same at open pins, and without a clock pin.
    b"  AND u1(.B(a), .Y());\n",
    b"  SLOW u1(.C(a), .Q());\n",
    b"  LOOSE u1(.C(a), .D());\n",
    b"  SLOW u1(.Q(y));\n",
    b"  LOOSE u1(.D(a));\n",
];
