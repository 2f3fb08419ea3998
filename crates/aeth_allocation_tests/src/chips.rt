// The chips on which paths are sought and plans are read.

/// Two routers, each with a network interface, and a link each way between them.
pub(crate) const PAIR: &str = "version = 1
slots = 8
routers = ['r0', 'r1']
nis = ['n0', 'n1']
link = [
  {from = 'n0', to = 'r0'}, {from = 'r0', to = 'n0'},
  {from = 'n1', to = 'r1'}, {from = 'r1', to = 'n1'},
  {from = 'r0', to = 'r1'}, {from = 'r1', to = 'r0'},
]
";

/// The pair with a second link from the first router to the second.
pub(crate) const TWIN: &str = "version = 1
slots = 8
routers = ['r0', 'r1']
nis = ['n0', 'n1']
link = [
  {from = 'n0', to = 'r0'}, {from = 'r0', to = 'n0'},
  {from = 'n1', to = 'r1'}, {from = 'r1', to = 'n1'},
  {from = 'r0', to = 'r1'}, {from = 'r1', to = 'r0'},
  {from = 'r0', to = 'r1'},
]
";

/// The twin links, of which the first has a delay of two cycles.
pub(crate) const SLOW_TWIN: &str = "version = 2
slots = 8
routers = ['r0', 'r1']
nis = ['n0', 'n1']
link = [
  {from = 'n0', to = 'r0'}, {from = 'r0', to = 'n0'},
  {from = 'n1', to = 'r1'}, {from = 'r1', to = 'n1'},
  {from = 'r0', to = 'r1', delay = 2}, {from = 'r1', to = 'r0'},
  {from = 'r0', to = 'r1'},
]
";

/// Three routers: the link from the first to the second takes as long as the two over the third.
pub(crate) const TRIANGLE: &str = "version = 2
slots = 8
routers = ['r0', 'r1', 'r2']
nis = ['n0', 'n1']
link = [
  {from = 'n0', to = 'r0'}, {from = 'r0', to = 'n0'},
  {from = 'n1', to = 'r1'}, {from = 'r1', to = 'n1'},
  {from = 'r0', to = 'r2'}, {from = 'r2', to = 'r1'},
  {from = 'r0', to = 'r1', delay = 2},
]
";

/// A mesh of two columns and two rows of routers, each with a network interface.
pub(crate) const SQUARE: &str = "version = 1
slots = 8
routers = ['r0', 'r1', 'r2', 'r3']
nis = ['n0', 'n1', 'n2', 'n3']
link = [
  {from = 'n0', to = 'r0'}, {from = 'r0', to = 'n0'},
  {from = 'n1', to = 'r1'}, {from = 'r1', to = 'n1'},
  {from = 'n2', to = 'r2'}, {from = 'r2', to = 'n2'},
  {from = 'n3', to = 'r3'}, {from = 'r3', to = 'n3'},
  {from = 'r0', to = 'r1'}, {from = 'r1', to = 'r0'},
  {from = 'r0', to = 'r2'}, {from = 'r2', to = 'r0'},
  {from = 'r1', to = 'r3'}, {from = 'r3', to = 'r1'},
  {from = 'r2', to = 'r3'}, {from = 'r3', to = 'r2'},
]
";

/// A mesh of four columns and four rows of routers, each with a network interface.
pub(crate) const MESH: &str = "version = 1
slots = 64
routers = [
  'r0', 'r1', 'r2', 'r3', 'r4', 'r5', 'r6', 'r7',
  'r8', 'r9', 'r10', 'r11', 'r12', 'r13', 'r14', 'r15',
]
nis = [
  'n0', 'n1', 'n2', 'n3', 'n4', 'n5', 'n6', 'n7',
  'n8', 'n9', 'n10', 'n11', 'n12', 'n13', 'n14', 'n15',
]
link = [
  {from = 'n0', to = 'r0'}, {from = 'r0', to = 'n0'},
  {from = 'n1', to = 'r1'}, {from = 'r1', to = 'n1'},
  {from = 'n2', to = 'r2'}, {from = 'r2', to = 'n2'},
  {from = 'n3', to = 'r3'}, {from = 'r3', to = 'n3'},
  {from = 'n4', to = 'r4'}, {from = 'r4', to = 'n4'},
  {from = 'n5', to = 'r5'}, {from = 'r5', to = 'n5'},
  {from = 'n6', to = 'r6'}, {from = 'r6', to = 'n6'},
  {from = 'n7', to = 'r7'}, {from = 'r7', to = 'n7'},
  {from = 'n8', to = 'r8'}, {from = 'r8', to = 'n8'},
  {from = 'n9', to = 'r9'}, {from = 'r9', to = 'n9'},
  {from = 'n10', to = 'r10'}, {from = 'r10', to = 'n10'},
  {from = 'n11', to = 'r11'}, {from = 'r11', to = 'n11'},
  {from = 'n12', to = 'r12'}, {from = 'r12', to = 'n12'},
  {from = 'n13', to = 'r13'}, {from = 'r13', to = 'n13'},
  {from = 'n14', to = 'r14'}, {from = 'r14', to = 'n14'},
  {from = 'n15', to = 'r15'}, {from = 'r15', to = 'n15'},
  {from = 'r0', to = 'r1'}, {from = 'r1', to = 'r0'},
  {from = 'r0', to = 'r4'}, {from = 'r4', to = 'r0'},
  {from = 'r1', to = 'r2'}, {from = 'r2', to = 'r1'},
  {from = 'r1', to = 'r5'}, {from = 'r5', to = 'r1'},
  {from = 'r2', to = 'r3'}, {from = 'r3', to = 'r2'},
  {from = 'r2', to = 'r6'}, {from = 'r6', to = 'r2'},
  {from = 'r3', to = 'r7'}, {from = 'r7', to = 'r3'},
  {from = 'r4', to = 'r5'}, {from = 'r5', to = 'r4'},
  {from = 'r4', to = 'r8'}, {from = 'r8', to = 'r4'},
  {from = 'r5', to = 'r6'}, {from = 'r6', to = 'r5'},
  {from = 'r5', to = 'r9'}, {from = 'r9', to = 'r5'},
  {from = 'r6', to = 'r7'}, {from = 'r7', to = 'r6'},
  {from = 'r6', to = 'r10'}, {from = 'r10', to = 'r6'},
  {from = 'r7', to = 'r11'}, {from = 'r11', to = 'r7'},
  {from = 'r8', to = 'r9'}, {from = 'r9', to = 'r8'},
  {from = 'r8', to = 'r12'}, {from = 'r12', to = 'r8'},
  {from = 'r9', to = 'r10'}, {from = 'r10', to = 'r9'},
  {from = 'r9', to = 'r13'}, {from = 'r13', to = 'r9'},
  {from = 'r10', to = 'r11'}, {from = 'r11', to = 'r10'},
  {from = 'r10', to = 'r14'}, {from = 'r14', to = 'r10'},
  {from = 'r11', to = 'r15'}, {from = 'r15', to = 'r11'},
  {from = 'r12', to = 'r13'}, {from = 'r13', to = 'r12'},
  {from = 'r13', to = 'r14'}, {from = 'r14', to = 'r13'},
  {from = 'r14', to = 'r15'}, {from = 'r15', to = 'r14'},
]
";
