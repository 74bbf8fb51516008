// The program that the documents follow step by step.
pub const NET: &[u8] = b".UNIT net, 2, 1
RMEM 1
PUSH 40
PUSH -55
PUSH net
CALL
IPRINT
HALT
net: LOADFP
LOADSP
STOREFP
LOAD 4
LOAD 3
ADD
STORE 5
STOREFP
RET 2
";
