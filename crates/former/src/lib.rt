// The rules as they stood for one processor, with alarms first, and the proof that the rule book of several gives one
// processor the same answers. There is no code here.
#![tactic(auto)]
